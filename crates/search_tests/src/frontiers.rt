//! What a frontier gives, by the least key and then by the least number.
//!
//! A row has what is done with an empty frontier, and after ` = ` the numbers that come out. A word such as `3,0:2` puts a number
//! in, the last one, with its key, and each number is less or greater than all before it; the word `-` takes the least pair out.

ghost use Rattle.std.specs.Prelude.{◌<◌, ◌≤◌, All};
ghost use Rattle.std.proofs.Props.{props};

use evaluations::{ByKey, Compared, Key, MAX_ENTRIES, Ranking};
use frontier::Frontier;
use std::alloc::Global;
use std::test::Fail;

// Keys of several entries and of several lengths; equal keys; keys that rise and that fall, with some pairs taken out between; and
// keys in no order.
const TAKEN: &str = "\
- 3,0:2 3,0:1 2,5:3 - - - - = none 3 1 2 none
1:9 1:8 1:7 1:6 1:5 1:4 1:3 1:2 1:1 1:0 0:10 - - - - - - - - - - - - = 10 0 1 2 3 4 5 6 7 8 9 none
1:9 1:8 1:7 1:6 1:5 1:4 1:3 1:2 1:1 1:0 0:10 - 0:11 - - = 10 11 0
3:1 3,0:2 :3 2,9:4 :0 3,0,0:5 2:6 - - - - - - - - = 0 3 6 4 1 2 5 none
0:0 0:1 1:2 1:3 2:4 2:5 3:6 3:7 - - - 0:8 0:9 1:10 1:11 2:12 2:13 3:14 3:15 - - - - - - - - - - - - - - = 0 1 2 8 9 3 10 11 4 5 12 13 6 7 14 15 none
9:0 8:1 7:2 6:3 5:4 4:5 3:6 2:7 - - - 12:8 11:9 10:10 9:11 8:12 7:13 6:14 5:15 - - - - - - - - - - - - - - = 7 6 5 4 15 3 14 2 13 1 12 0 11 10 9 8 none
3,1:19 1,2:20 1,0:21 0,2:18 1,2:22 - 1,0:17 2,1:23 1,2:16 - - - 0,2:15 - 0,0:24 0,1:14 0,0:25 - 3,1:13 - 2,1:26 - - 0,0:27 - - - 1,1:12 1,1:28 3,0:11 - 2,0:29 - 0,0:30 2,0:10 2,1:9 - - 2,1:8 3,2:7 - 2,0:31 1,0:6 1,2:32 0,1:33 - - 3,1:5 3,1:34 0,0:35 - 0,1:36 - 0,1:37 0,0:4 - 0,1:38 - 1,2:3 - - 0,0:39 0,2:2 - - - 0,2:1 2,1:0 - - - - - - - - - - - - - = 18 17 21 16 15 24 25 14 20 27 22 23 12 28 30 10 29 33 6 35 36 4 37 38 3 39 2 32 1 31 0 8 9 26 11 5 13 19 34 7 none
";

#[test]
fn the_least_pair_comes_out(rt: HostRuntime) -> Result<(), Fail> {
    for row in TAKEN.lines() {
        let (words, taken) = row.split_once(" = ").unwrap_or((row, ""));
        assert_eq!(rt; taken_out(rt.alloc(), words)?.as_str(), taken, "{words}");
    }
    Ok(())
}

// The numbers that come out where these words are followed.
fn taken_out(alloc: Global, words: &str) -> Result<String, Fail> {
    let mut queue = Queue::new(alloc);
    let mut taken = String::new(alloc);
    for word in words.split(' ') {
        if let Some((entries, number)) = word.split_once(':') {
            let number = number.parse::<u32>().unwrap_or(0);
            queue.put(key_of(alloc, entries)?, number)?;
            continue;
        }
        if !taken.is_empty() {
            taken.push_str(" ")?;
        }
        match queue.take() {
            Some(number) => write!(taken, "{number}")?,
            None => taken.push_str("none")?,
        }
    }
    Ok(taken)
}

// The key of these entries, with a comma between each two.
fn key_of(alloc: Global, text: &str) -> Result<Key, Fail> {
    let mut entries = Vec::new(alloc);
    for entry in text.split(',') {
        if let Ok(entry) = entry.parse::<u64>() {
            entries.push(entry)?;
        }
    }
    if entries.len() > MAX_ENTRIES {
        return Err(Fail::new("the key is too long"));
    }
    Ok(Key::of(entries.as_slice()))
}

// The greatest of the numbers that are put in, with equal keys, and how many comparisons one of so many pairs may cost.
const LAST: u32 = 1022;

const MOST_COMPARISONS: u64 = 20;

#[test]
fn few_pairs_are_compared(rt: HostRuntime) -> Result<(), Fail> {
    let mut queue = Queue::new(rt.alloc());
    for number in (0..=LAST).rev() {
        queue.put(Key::of(&[1]), number)?;
    }
    let before = ByKey::compared(&queue.tally);
    assert_eq!(rt; queue.take(), Some(0));
    let rise = ByKey::compared(&queue.tally).saturating_sub(before);
    assert!(rt; rise <= MOST_COMPARISONS, "{rise}");
    Ok(())
}

// A frontier, the comparisons that were made, and a range that has all its numbers.
#[derive(Drop)]
struct Queue {
    frontier: Frontier<ByKey>,
    tally: Compared,
    low: u32,
    high: u32,
    ghost within: { All (λ pair. (low ≤ pair.1) × (pair.1 < high)) frontier.pairs } by { Prim.hlevel props },
}

impl Queue {
    fn new(alloc: Global) -> Queue {
        Queue {
            frontier: Frontier::new(alloc),
            tally: Compared::zero(),
            low: u32::MAX,
            high: 0,
        }
    }

    // Puts in a number that is less than all that were put in, or greater.
    fn put(&mut self, key: Key, number: u32) -> Result<(), Fail> {
        let above = number.checked_add(1).unwrap_or(0);
        if above == 0 || (self.low <= number && number < self.high) {
            return Err(Fail::new("the number stands among others"));
        }
        self.frontier.reserve(1)?;
        self.frontier.push(key, number, &mut self.tally);
        self.low = self.low.min(number);
        self.high = self.high.max(above);
        Ok(())
    }

    // Takes out the number of the least pair.
    fn take(&mut self) -> Option<u32> {
        let (_, number) = self.frontier.pop_least(&mut self.tally)?;
        Some(number)
    }
}
