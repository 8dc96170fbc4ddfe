//! Each single change of a mark of the document that says that two lights are not lit by a program of up to three lines. Only
//! the numbers of splits may be others: nothing is asked of them but their range.

/// The number of the line, what stands there instead, and the verdict.
pub const SINGLE_CHANGES: &str = "\
7 s 0 0: rejected
7 l 0 0: rejected
7 t 0 0: rejected
7 o 0 0: rejected
7 g 0 0: rejected
7 r 0 0: rejected
7 f 1 0: rejected
7 f -1 0: rejected
7 f 0 1: rejected
7 f 0 -1: rejected
9 f 0 0: rejected
9 l 0 0: rejected
9 t 0 0: rejected
9 o 0 0: rejected
9 g 0 0: rejected
9 r 0 0: rejected
9 s 1 0: rejected
9 s -1 0: rejected
9 s 0 1: accepted
9 s 0 -1: rejected
10 s 0 1: rejected
10 l 0 1: rejected
10 t 0 1: rejected
10 o 0 1: rejected
10 g 0 1: rejected
10 r 0 1: rejected
10 f 1 1: rejected
10 f -1 1: rejected
10 f 0 2: rejected
10 f 0 0: rejected
11 s 0 1: rejected
11 l 0 1: rejected
11 t 0 1: rejected
11 o 0 1: rejected
11 g 0 1: rejected
11 r 0 1: rejected
11 f 1 1: rejected
11 f -1 1: rejected
11 f 0 2: rejected
11 f 0 0: rejected
12 s 0 1: rejected
12 l 0 1: rejected
12 t 0 1: rejected
12 o 0 1: rejected
12 g 0 1: rejected
12 r 0 1: rejected
12 f 1 1: rejected
12 f -1 1: rejected
12 f 0 2: rejected
12 f 0 0: rejected
13 s 0 1: rejected
13 l 0 1: rejected
13 t 0 1: rejected
13 o 0 1: rejected
13 g 0 1: rejected
13 r 0 1: rejected
13 f 1 1: rejected
13 f -1 1: rejected
13 f 0 2: rejected
13 f 0 0: rejected
14 s 0 1: rejected
14 l 0 1: rejected
14 t 0 1: rejected
14 o 0 1: rejected
14 g 0 1: rejected
14 r 0 1: rejected
14 f 1 1: rejected
14 f -1 1: rejected
14 f 0 2: rejected
14 f 0 0: rejected
16 f 0 1: rejected
16 l 0 1: rejected
16 t 0 1: rejected
16 o 0 1: rejected
16 g 0 1: rejected
16 r 0 1: rejected
16 s 1 1: rejected
16 s -1 1: rejected
16 s 0 2: accepted
16 s 0 0: accepted
17 f 1 2: rejected
17 l 1 2: rejected
17 t 1 2: rejected
17 o 1 2: rejected
17 g 1 2: rejected
17 r 1 2: rejected
17 s 2 2: rejected
17 s 0 2: rejected
17 s 1 3: accepted
17 s 1 1: accepted
18 s 0 2: rejected
18 l 0 2: rejected
18 t 0 2: rejected
18 o 0 2: rejected
18 g 0 2: rejected
18 r 0 2: rejected
18 f 1 2: rejected
18 f -1 2: rejected
18 f 0 3: rejected
18 f 0 1: rejected
19 s 0 2: rejected
19 l 0 2: rejected
19 t 0 2: rejected
19 o 0 2: rejected
19 g 0 2: rejected
19 r 0 2: rejected
19 f 1 2: rejected
19 f -1 2: rejected
19 f 0 3: rejected
19 f 0 1: rejected
20 s 0 2: rejected
20 l 0 2: rejected
20 t 0 2: rejected
20 o 0 2: rejected
20 g 0 2: rejected
20 r 0 2: rejected
20 f 1 2: rejected
20 f -1 2: rejected
20 f 0 3: rejected
20 f 0 1: rejected
21 s 0 2: rejected
21 l 0 2: rejected
21 t 0 2: rejected
21 o 0 2: rejected
21 g 0 2: rejected
21 r 0 2: rejected
21 f 1 2: rejected
21 f -1 2: rejected
21 f 0 3: rejected
21 f 0 1: rejected
22 s 0 2: rejected
22 l 0 2: rejected
22 t 0 2: rejected
22 o 0 2: rejected
22 g 0 2: rejected
22 r 0 2: rejected
22 f 1 2: rejected
22 f -1 2: rejected
22 f 0 3: rejected
22 f 0 1: rejected
23 s 0 2: rejected
23 l 0 2: rejected
23 t 0 2: rejected
23 o 0 2: rejected
23 g 0 2: rejected
23 r 0 2: rejected
23 f 1 2: rejected
23 f -1 2: rejected
23 f 0 3: rejected
23 f 0 1: rejected
24 s 0 1 3: rejected
24 f 0 1 3: rejected
24 t 0 1 3: rejected
24 o 0 1 3: rejected
24 g 0 1 3: rejected
24 r 0 1 3: rejected
24 l 1 1 3: rejected
24 l -1 1 3: rejected
24 l 0 2 3: rejected
24 l 0 0 3: rejected
24 l 0 1 4: rejected
24 l 0 1 2: rejected
25 s 0 1 3: rejected
25 f 0 1 3: rejected
25 t 0 1 3: rejected
25 o 0 1 3: rejected
25 g 0 1 3: rejected
25 r 0 1 3: rejected
25 l 1 1 3: rejected
25 l -1 1 3: rejected
25 l 0 2 3: rejected
25 l 0 0 3: rejected
25 l 0 1 4: rejected
25 l 0 1 2: rejected
26 s 0 2: rejected
26 l 0 2: rejected
26 t 0 2: rejected
26 o 0 2: rejected
26 g 0 2: rejected
26 r 0 2: rejected
26 f 1 2: rejected
26 f -1 2: rejected
26 f 0 3: rejected
26 f 0 1: rejected
27 f 1 3: rejected
27 l 1 3: rejected
27 t 1 3: rejected
27 o 1 3: rejected
27 g 1 3: rejected
27 r 1 3: rejected
27 s 2 3: rejected
27 s 0 3: rejected
27 s 1 4: accepted
27 s 1 2: accepted
28 s 0 2: rejected
28 l 0 2: rejected
28 t 0 2: rejected
28 o 0 2: rejected
28 g 0 2: rejected
28 r 0 2: rejected
28 f 1 2: rejected
28 f -1 2: rejected
28 f 0 3: rejected
28 f 0 1: rejected
29 s 0 2: rejected
29 l 0 2: rejected
29 t 0 2: rejected
29 o 0 2: rejected
29 g 0 2: rejected
29 r 0 2: rejected
29 f 1 2: rejected
29 f -1 2: rejected
29 f 0 3: rejected
29 f 0 1: rejected
30 s 0 2: rejected
30 l 0 2: rejected
30 t 0 2: rejected
30 o 0 2: rejected
30 g 0 2: rejected
30 r 0 2: rejected
30 f 1 2: rejected
30 f -1 2: rejected
30 f 0 3: rejected
30 f 0 1: rejected
31 s 0 2: rejected
31 l 0 2: rejected
31 t 0 2: rejected
31 o 0 2: rejected
31 g 0 2: rejected
31 r 0 2: rejected
31 f 1 2: rejected
31 f -1 2: rejected
31 f 0 3: rejected
31 f 0 1: rejected
32 s 0 2: rejected
32 l 0 2: rejected
32 t 0 2: rejected
32 o 0 2: rejected
32 g 0 2: rejected
32 r 0 2: rejected
32 f 1 2: rejected
32 f -1 2: rejected
32 f 0 3: rejected
32 f 0 1: rejected
33 s 0 1 3: rejected
33 f 0 1 3: rejected
33 t 0 1 3: rejected
33 o 0 1 3: rejected
33 g 0 1 3: rejected
33 r 0 1 3: rejected
33 l 1 1 3: rejected
33 l -1 1 3: rejected
33 l 0 2 3: rejected
33 l 0 0 3: rejected
33 l 0 1 4: rejected
33 l 0 1 2: rejected
34 s 0 2: rejected
34 l 0 2: rejected
34 t 0 2: rejected
34 o 0 2: rejected
34 g 0 2: rejected
34 r 0 2: rejected
34 f 1 2: rejected
34 f -1 2: rejected
34 f 0 3: rejected
34 f 0 1: rejected
35 s 0 2: rejected
35 l 0 2: rejected
35 t 0 2: rejected
35 o 0 2: rejected
35 g 0 2: rejected
35 r 0 2: rejected
35 f 1 2: rejected
35 f -1 2: rejected
35 f 0 3: rejected
35 f 0 1: rejected
36 s 0 1 3: rejected
36 f 0 1 3: rejected
36 t 0 1 3: rejected
36 o 0 1 3: rejected
36 g 0 1 3: rejected
36 r 0 1 3: rejected
36 l 1 1 3: rejected
36 l -1 1 3: rejected
36 l 0 2 3: rejected
36 l 0 0 3: rejected
36 l 0 1 4: rejected
36 l 0 1 2: rejected
37 f 1 4: rejected
37 l 1 4: rejected
37 t 1 4: rejected
37 o 1 4: rejected
37 g 1 4: rejected
37 r 1 4: rejected
37 s 2 4: rejected
37 s 0 4: rejected
37 s 1 5: accepted
37 s 1 3: accepted
38 s 0 2: rejected
38 l 0 2: rejected
38 t 0 2: rejected
38 o 0 2: rejected
38 g 0 2: rejected
38 r 0 2: rejected
38 f 1 2: rejected
38 f -1 2: rejected
38 f 0 3: rejected
38 f 0 1: rejected
39 s 0 2: rejected
39 l 0 2: rejected
39 t 0 2: rejected
39 o 0 2: rejected
39 g 0 2: rejected
39 r 0 2: rejected
39 f 1 2: rejected
39 f -1 2: rejected
39 f 0 3: rejected
39 f 0 1: rejected
40 s 0 2: rejected
40 l 0 2: rejected
40 t 0 2: rejected
40 o 0 2: rejected
40 g 0 2: rejected
40 r 0 2: rejected
40 f 1 2: rejected
40 f -1 2: rejected
40 f 0 3: rejected
40 f 0 1: rejected
41 s 0 2: rejected
41 l 0 2: rejected
41 t 0 2: rejected
41 o 0 2: rejected
41 g 0 2: rejected
41 r 0 2: rejected
41 f 1 2: rejected
41 f -1 2: rejected
41 f 0 3: rejected
41 f 0 1: rejected
42 s 0 2: rejected
42 l 0 2: rejected
42 t 0 2: rejected
42 o 0 2: rejected
42 g 0 2: rejected
42 r 0 2: rejected
42 f 1 2: rejected
42 f -1 2: rejected
42 f 0 3: rejected
42 f 0 1: rejected
43 s 0 2: rejected
43 l 0 2: rejected
43 t 0 2: rejected
43 o 0 2: rejected
43 g 0 2: rejected
43 r 0 2: rejected
43 f 1 2: rejected
43 f -1 2: rejected
43 f 0 3: rejected
43 f 0 1: rejected
44 s 0 4: rejected
44 l 0 4: rejected
44 t 0 4: rejected
44 o 0 4: rejected
44 g 0 4: rejected
44 r 0 4: rejected
44 f 1 4: rejected
44 f -1 4: rejected
44 f 0 5: rejected
44 f 0 3: rejected
45 s 0 4: rejected
45 l 0 4: rejected
45 t 0 4: rejected
45 o 0 4: rejected
45 g 0 4: rejected
45 r 0 4: rejected
45 f 1 4: rejected
45 f -1 4: rejected
45 f 0 5: rejected
45 f 0 3: rejected
46 s 0 2: rejected
46 l 0 2: rejected
46 t 0 2: rejected
46 o 0 2: rejected
46 g 0 2: rejected
46 r 0 2: rejected
46 f 1 2: rejected
46 f -1 2: rejected
46 f 0 3: rejected
46 f 0 1: rejected
47 f 1 5: rejected
47 l 1 5: rejected
47 t 1 5: rejected
47 o 1 5: rejected
47 g 1 5: rejected
47 r 1 5: rejected
47 s 2 5: rejected
47 s 0 5: rejected
47 s 1 6: accepted
47 s 1 4: accepted
48 s 0 2: rejected
48 l 0 2: rejected
48 t 0 2: rejected
48 o 0 2: rejected
48 g 0 2: rejected
48 r 0 2: rejected
48 f 1 2: rejected
48 f -1 2: rejected
48 f 0 3: rejected
48 f 0 1: rejected
49 s 0 2: rejected
49 l 0 2: rejected
49 t 0 2: rejected
49 o 0 2: rejected
49 g 0 2: rejected
49 r 0 2: rejected
49 f 1 2: rejected
49 f -1 2: rejected
49 f 0 3: rejected
49 f 0 1: rejected
50 s 0 2: rejected
50 l 0 2: rejected
50 t 0 2: rejected
50 o 0 2: rejected
50 g 0 2: rejected
50 r 0 2: rejected
50 f 1 2: rejected
50 f -1 2: rejected
50 f 0 3: rejected
50 f 0 1: rejected
51 s 0 2: rejected
51 l 0 2: rejected
51 t 0 2: rejected
51 o 0 2: rejected
51 g 0 2: rejected
51 r 0 2: rejected
51 f 1 2: rejected
51 f -1 2: rejected
51 f 0 3: rejected
51 f 0 1: rejected
52 s 0 2: rejected
52 l 0 2: rejected
52 t 0 2: rejected
52 o 0 2: rejected
52 g 0 2: rejected
52 r 0 2: rejected
52 f 1 2: rejected
52 f -1 2: rejected
52 f 0 3: rejected
52 f 0 1: rejected
53 s 0 1 3: rejected
53 f 0 1 3: rejected
53 t 0 1 3: rejected
53 o 0 1 3: rejected
53 g 0 1 3: rejected
53 r 0 1 3: rejected
53 l 1 1 3: rejected
53 l -1 1 3: rejected
53 l 0 2 3: rejected
53 l 0 0 3: rejected
53 l 0 1 4: rejected
53 l 0 1 2: rejected
54 s 0 2: rejected
54 l 0 2: rejected
54 t 0 2: rejected
54 o 0 2: rejected
54 g 0 2: rejected
54 r 0 2: rejected
54 f 1 2: rejected
54 f -1 2: rejected
54 f 0 3: rejected
54 f 0 1: rejected
55 s 0 2: rejected
55 l 0 2: rejected
55 t 0 2: rejected
55 o 0 2: rejected
55 g 0 2: rejected
55 r 0 2: rejected
55 f 1 2: rejected
55 f -1 2: rejected
55 f 0 3: rejected
55 f 0 1: rejected
56 s 0 1 3: rejected
56 f 0 1 3: rejected
56 t 0 1 3: rejected
56 o 0 1 3: rejected
56 g 0 1 3: rejected
56 r 0 1 3: rejected
56 l 1 1 3: rejected
56 l -1 1 3: rejected
56 l 0 2 3: rejected
56 l 0 0 3: rejected
56 l 0 1 4: rejected
56 l 0 1 2: rejected
57 f 1 6: rejected
57 l 1 6: rejected
57 t 1 6: rejected
57 o 1 6: rejected
57 g 1 6: rejected
57 r 1 6: rejected
57 s 2 6: rejected
57 s 0 6: rejected
57 s 1 7: accepted
57 s 1 5: accepted
58 s 0 2: rejected
58 l 0 2: rejected
58 t 0 2: rejected
58 o 0 2: rejected
58 g 0 2: rejected
58 r 0 2: rejected
58 f 1 2: rejected
58 f -1 2: rejected
58 f 0 3: rejected
58 f 0 1: rejected
59 s 0 2: rejected
59 l 0 2: rejected
59 t 0 2: rejected
59 o 0 2: rejected
59 g 0 2: rejected
59 r 0 2: rejected
59 f 1 2: rejected
59 f -1 2: rejected
59 f 0 3: rejected
59 f 0 1: rejected
60 s 0 2: rejected
60 l 0 2: rejected
60 t 0 2: rejected
60 o 0 2: rejected
60 g 0 2: rejected
60 r 0 2: rejected
60 f 1 2: rejected
60 f -1 2: rejected
60 f 0 3: rejected
60 f 0 1: rejected
61 s 0 2: rejected
61 l 0 2: rejected
61 t 0 2: rejected
61 o 0 2: rejected
61 g 0 2: rejected
61 r 0 2: rejected
61 f 1 2: rejected
61 f -1 2: rejected
61 f 0 3: rejected
61 f 0 1: rejected
62 s 0 2: rejected
62 l 0 2: rejected
62 t 0 2: rejected
62 o 0 2: rejected
62 g 0 2: rejected
62 r 0 2: rejected
62 f 1 2: rejected
62 f -1 2: rejected
62 f 0 3: rejected
62 f 0 1: rejected
63 s 0 1 3: rejected
63 f 0 1 3: rejected
63 t 0 1 3: rejected
63 o 0 1 3: rejected
63 g 0 1 3: rejected
63 r 0 1 3: rejected
63 l 1 1 3: rejected
63 l -1 1 3: rejected
63 l 0 2 3: rejected
63 l 0 0 3: rejected
63 l 0 1 4: rejected
63 l 0 1 2: rejected
64 s 0 2: rejected
64 l 0 2: rejected
64 t 0 2: rejected
64 o 0 2: rejected
64 g 0 2: rejected
64 r 0 2: rejected
64 f 1 2: rejected
64 f -1 2: rejected
64 f 0 3: rejected
64 f 0 1: rejected
65 s 0 2: rejected
65 l 0 2: rejected
65 t 0 2: rejected
65 o 0 2: rejected
65 g 0 2: rejected
65 r 0 2: rejected
65 f 1 2: rejected
65 f -1 2: rejected
65 f 0 3: rejected
65 f 0 1: rejected
66 s 0 1 3: rejected
66 f 0 1 3: rejected
66 t 0 1 3: rejected
66 o 0 1 3: rejected
66 g 0 1 3: rejected
66 r 0 1 3: rejected
66 l 1 1 3: rejected
66 l -1 1 3: rejected
66 l 0 2 3: rejected
66 l 0 0 3: rejected
66 l 0 1 4: rejected
66 l 0 1 2: rejected
67 f 1 7: rejected
67 l 1 7: rejected
67 t 1 7: rejected
67 o 1 7: rejected
67 g 1 7: rejected
67 r 1 7: rejected
67 s 2 7: rejected
67 s 0 7: rejected
67 s 1 8: accepted
67 s 1 6: accepted
68 s 0 2: rejected
68 l 0 2: rejected
68 t 0 2: rejected
68 o 0 2: rejected
68 g 0 2: rejected
68 r 0 2: rejected
68 f 1 2: rejected
68 f -1 2: rejected
68 f 0 3: rejected
68 f 0 1: rejected
69 s 0 2: rejected
69 l 0 2: rejected
69 t 0 2: rejected
69 o 0 2: rejected
69 g 0 2: rejected
69 r 0 2: rejected
69 f 1 2: rejected
69 f -1 2: rejected
69 f 0 3: rejected
69 f 0 1: rejected
70 s 0 2: rejected
70 l 0 2: rejected
70 t 0 2: rejected
70 o 0 2: rejected
70 g 0 2: rejected
70 r 0 2: rejected
70 f 1 2: rejected
70 f -1 2: rejected
70 f 0 3: rejected
70 f 0 1: rejected
71 s 0 2: rejected
71 l 0 2: rejected
71 t 0 2: rejected
71 o 0 2: rejected
71 g 0 2: rejected
71 r 0 2: rejected
71 f 1 2: rejected
71 f -1 2: rejected
71 f 0 3: rejected
71 f 0 1: rejected
72 s 0 2: rejected
72 l 0 2: rejected
72 t 0 2: rejected
72 o 0 2: rejected
72 g 0 2: rejected
72 r 0 2: rejected
72 f 1 2: rejected
72 f -1 2: rejected
72 f 0 3: rejected
72 f 0 1: rejected
73 s 0 2: rejected
73 l 0 2: rejected
73 t 0 2: rejected
73 o 0 2: rejected
73 g 0 2: rejected
73 r 0 2: rejected
73 f 1 2: rejected
73 f -1 2: rejected
73 f 0 3: rejected
73 f 0 1: rejected
74 s 0 1 3: rejected
74 f 0 1 3: rejected
74 t 0 1 3: rejected
74 o 0 1 3: rejected
74 g 0 1 3: rejected
74 r 0 1 3: rejected
74 l 1 1 3: rejected
74 l -1 1 3: rejected
74 l 0 2 3: rejected
74 l 0 0 3: rejected
74 l 0 1 4: rejected
74 l 0 1 2: rejected
75 s 0 2: rejected
75 l 0 2: rejected
75 t 0 2: rejected
75 o 0 2: rejected
75 g 0 2: rejected
75 r 0 2: rejected
75 f 1 2: rejected
75 f -1 2: rejected
75 f 0 3: rejected
75 f 0 1: rejected
76 s 0 1 3: rejected
76 f 0 1 3: rejected
76 t 0 1 3: rejected
76 o 0 1 3: rejected
76 g 0 1 3: rejected
76 r 0 1 3: rejected
76 l 1 1 3: rejected
76 l -1 1 3: rejected
76 l 0 2 3: rejected
76 l 0 0 3: rejected
76 l 0 1 4: rejected
76 l 0 1 2: rejected
77 s 0 1: rejected
77 l 0 1: rejected
77 t 0 1: rejected
77 o 0 1: rejected
77 g 0 1: rejected
77 r 0 1: rejected
77 f 1 1: rejected
77 f -1 1: rejected
77 f 0 2: rejected
77 f 0 0: rejected
78 f 1 8: rejected
78 l 1 8: rejected
78 t 1 8: rejected
78 o 1 8: rejected
78 g 1 8: rejected
78 r 1 8: rejected
78 s 2 8: rejected
78 s 0 8: rejected
78 s 1 9: accepted
78 s 1 7: accepted
79 s 0 2: rejected
79 l 0 2: rejected
79 t 0 2: rejected
79 o 0 2: rejected
79 g 0 2: rejected
79 r 0 2: rejected
79 f 1 2: rejected
79 f -1 2: rejected
79 f 0 3: rejected
79 f 0 1: rejected
80 s 0 2: rejected
80 l 0 2: rejected
80 t 0 2: rejected
80 o 0 2: rejected
80 g 0 2: rejected
80 r 0 2: rejected
80 f 1 2: rejected
80 f -1 2: rejected
80 f 0 3: rejected
80 f 0 1: rejected
81 s 0 2: rejected
81 l 0 2: rejected
81 t 0 2: rejected
81 o 0 2: rejected
81 g 0 2: rejected
81 r 0 2: rejected
81 f 1 2: rejected
81 f -1 2: rejected
81 f 0 3: rejected
81 f 0 1: rejected
82 s 0 2: rejected
82 l 0 2: rejected
82 t 0 2: rejected
82 o 0 2: rejected
82 g 0 2: rejected
82 r 0 2: rejected
82 f 1 2: rejected
82 f -1 2: rejected
82 f 0 3: rejected
82 f 0 1: rejected
83 s 0 2: rejected
83 l 0 2: rejected
83 t 0 2: rejected
83 o 0 2: rejected
83 g 0 2: rejected
83 r 0 2: rejected
83 f 1 2: rejected
83 f -1 2: rejected
83 f 0 3: rejected
83 f 0 1: rejected
84 s 0 2: rejected
84 l 0 2: rejected
84 t 0 2: rejected
84 o 0 2: rejected
84 g 0 2: rejected
84 r 0 2: rejected
84 f 1 2: rejected
84 f -1 2: rejected
84 f 0 3: rejected
84 f 0 1: rejected
85 s 0 1 3: rejected
85 f 0 1 3: rejected
85 t 0 1 3: rejected
85 o 0 1 3: rejected
85 g 0 1 3: rejected
85 r 0 1 3: rejected
85 l 1 1 3: rejected
85 l -1 1 3: rejected
85 l 0 2 3: rejected
85 l 0 0 3: rejected
85 l 0 1 4: rejected
85 l 0 1 2: rejected
86 s 0 2: rejected
86 l 0 2: rejected
86 t 0 2: rejected
86 o 0 2: rejected
86 g 0 2: rejected
86 r 0 2: rejected
86 f 1 2: rejected
86 f -1 2: rejected
86 f 0 3: rejected
86 f 0 1: rejected
87 s 0 1 3: rejected
87 f 0 1 3: rejected
87 t 0 1 3: rejected
87 o 0 1 3: rejected
87 g 0 1 3: rejected
87 r 0 1 3: rejected
87 l 1 1 3: rejected
87 l -1 1 3: rejected
87 l 0 2 3: rejected
87 l 0 0 3: rejected
87 l 0 1 4: rejected
87 l 0 1 2: rejected
88 s 0 1: rejected
88 l 0 1: rejected
88 t 0 1: rejected
88 o 0 1: rejected
88 g 0 1: rejected
88 r 0 1: rejected
88 f 1 1: rejected
88 f -1 1: rejected
88 f 0 2: rejected
88 f 0 0: rejected
";

/// A mark that refutes nothing in the place of each mark of that document, in the same form.
pub const MARKS_THAT_REFUTE_NOTHING: &str = "\
7 t: rejected
7 o: rejected
7 g: rejected
7 r 0: rejected
9 t: rejected
9 o: rejected
9 g: rejected
9 r 0: rejected
10 t: rejected
10 o: rejected
10 g: rejected
10 r 0: rejected
11 t: rejected
11 o: rejected
11 g: rejected
11 r 0: rejected
12 t: rejected
12 o: rejected
12 g: rejected
12 r 0: rejected
13 t: rejected
13 o: rejected
13 g: rejected
13 r 0: rejected
14 t: rejected
14 o: rejected
14 g: rejected
14 r 0: rejected
16 t: rejected
16 o: rejected
16 g: rejected
16 r 0: rejected
17 t: rejected
17 o: rejected
17 g: rejected
17 r 0: rejected
18 t: rejected
18 o: rejected
18 g: rejected
18 r 0: rejected
19 t: rejected
19 o: rejected
19 g: rejected
19 r 0: rejected
20 t: rejected
20 o: rejected
20 g: rejected
20 r 0: rejected
21 t: rejected
21 o: rejected
21 g: rejected
21 r 0: rejected
22 t: rejected
22 o: rejected
22 g: rejected
22 r 0: rejected
23 t: rejected
23 o: rejected
23 g: rejected
23 r 0: rejected
24 t: rejected
24 o: rejected
24 g: rejected
24 r 0: rejected
25 t: rejected
25 o: rejected
25 g: rejected
25 r 0: rejected
26 t: rejected
26 o: rejected
26 g: rejected
26 r 0: rejected
27 t: rejected
27 o: rejected
27 g: rejected
27 r 0: rejected
28 t: rejected
28 o: rejected
28 g: rejected
28 r 0: rejected
29 t: rejected
29 o: rejected
29 g: rejected
29 r 0: rejected
30 t: rejected
30 o: rejected
30 g: rejected
30 r 0: rejected
31 t: rejected
31 o: rejected
31 g: rejected
31 r 0: rejected
32 t: rejected
32 o: rejected
32 g: rejected
32 r 0: rejected
33 t: rejected
33 o: rejected
33 g: rejected
33 r 0: rejected
34 t: rejected
34 o: rejected
34 g: rejected
34 r 0: rejected
35 t: rejected
35 o: rejected
35 g: rejected
35 r 0: rejected
36 t: rejected
36 o: rejected
36 g: rejected
36 r 0: rejected
37 t: rejected
37 o: rejected
37 g: rejected
37 r 0: rejected
38 t: rejected
38 o: rejected
38 g: rejected
38 r 0: rejected
39 t: rejected
39 o: rejected
39 g: rejected
39 r 0: rejected
40 t: rejected
40 o: rejected
40 g: rejected
40 r 0: rejected
41 t: rejected
41 o: rejected
41 g: rejected
41 r 0: rejected
42 t: rejected
42 o: rejected
42 g: rejected
42 r 0: rejected
43 t: rejected
43 o: rejected
43 g: rejected
43 r 0: rejected
44 t: rejected
44 o: rejected
44 g: rejected
44 r 0: rejected
45 t: rejected
45 o: rejected
45 g: rejected
45 r 0: rejected
46 t: rejected
46 o: rejected
46 g: rejected
46 r 0: rejected
47 t: rejected
47 o: rejected
47 g: rejected
47 r 0: rejected
48 t: rejected
48 o: rejected
48 g: rejected
48 r 0: rejected
49 t: rejected
49 o: rejected
49 g: rejected
49 r 0: rejected
50 t: rejected
50 o: rejected
50 g: rejected
50 r 0: rejected
51 t: rejected
51 o: rejected
51 g: rejected
51 r 0: rejected
52 t: rejected
52 o: rejected
52 g: rejected
52 r 0: rejected
53 t: rejected
53 o: rejected
53 g: rejected
53 r 0: rejected
54 t: rejected
54 o: rejected
54 g: rejected
54 r 0: rejected
55 t: rejected
55 o: rejected
55 g: rejected
55 r 0: rejected
56 t: rejected
56 o: rejected
56 g: rejected
56 r 0: rejected
57 t: rejected
57 o: rejected
57 g: rejected
57 r 0: rejected
58 t: rejected
58 o: rejected
58 g: rejected
58 r 0: rejected
59 t: rejected
59 o: rejected
59 g: rejected
59 r 0: rejected
60 t: rejected
60 o: rejected
60 g: rejected
60 r 0: rejected
61 t: rejected
61 o: rejected
61 g: rejected
61 r 0: rejected
62 t: rejected
62 o: rejected
62 g: rejected
62 r 0: rejected
63 t: rejected
63 o: rejected
63 g: rejected
63 r 0: rejected
64 t: rejected
64 o: rejected
64 g: rejected
64 r 0: rejected
65 t: rejected
65 o: rejected
65 g: rejected
65 r 0: rejected
66 t: rejected
66 o: rejected
66 g: rejected
66 r 0: rejected
67 t: rejected
67 o: rejected
67 g: rejected
67 r 0: rejected
68 t: rejected
68 o: rejected
68 g: rejected
68 r 0: rejected
69 t: rejected
69 o: rejected
69 g: rejected
69 r 0: rejected
70 t: rejected
70 o: rejected
70 g: rejected
70 r 0: rejected
71 t: rejected
71 o: rejected
71 g: rejected
71 r 0: rejected
72 t: rejected
72 o: rejected
72 g: rejected
72 r 0: rejected
73 t: rejected
73 o: rejected
73 g: rejected
73 r 0: rejected
74 t: rejected
74 o: rejected
74 g: rejected
74 r 0: rejected
75 t: rejected
75 o: rejected
75 g: rejected
75 r 0: rejected
76 t: rejected
76 o: rejected
76 g: rejected
76 r 0: rejected
77 t: rejected
77 o: rejected
77 g: rejected
77 r 0: rejected
78 t: rejected
78 o: rejected
78 g: rejected
78 r 0: rejected
79 t: rejected
79 o: rejected
79 g: rejected
79 r 0: rejected
80 t: rejected
80 o: rejected
80 g: rejected
80 r 0: rejected
81 t: rejected
81 o: rejected
81 g: rejected
81 r 0: rejected
82 t: rejected
82 o: rejected
82 g: rejected
82 r 0: rejected
83 t: rejected
83 o: rejected
83 g: rejected
83 r 0: rejected
84 t: rejected
84 o: rejected
84 g: rejected
84 r 0: rejected
85 t: rejected
85 o: rejected
85 g: rejected
85 r 0: rejected
86 t: rejected
86 o: rejected
86 g: rejected
86 r 0: rejected
87 t: rejected
87 o: rejected
87 g: rejected
87 r 0: rejected
88 t: rejected
88 o: rejected
88 g: rejected
88 r 0: rejected
";
