ghost use Rattle.std.specs.Prelude.{◌≡◌, IsTrue, ◌∷◌, [], ◌++◌, length, map, IfOk};
ghost use Rattle.pddl_forms.specs.Forms.{typed};
ghost use Rattle.pddl_forms.specs.SharedTypes.{IsLikeLast};

use crate::shared_word::SharedWord;
use crate::texts::{Typed, Word};
use flag_rules::{List, OutOfMemory};
use std::alloc::Global;
use std::marker::Model;

/// The words of a typed list in order, each with its type. Contracts see the list of them.
///
/// Of the words of a group it is known that they have one type, so that a walk over many words of one type may look at the name
/// of the type once.
#[derive(Debug, Drop)]
pub struct TypedWords {
    words: List<Typed>,
    /// For each word whether it is known to have the type of the word before it.
    alike: Vec<bool>,
}

impl Model for TypedWords {
    ghost use Rattle.std.specs.Prelude.{List as Sequence};
    ghost use Rattle.pddl_forms.specs.declared.texts.Typed.{Typed};
    ghost use Rattle.pddl_forms.specs.Inner.Alike.{AreAlike};

    ghost Value = { Sequence Typed };

    ghost view = { λ list. list.words };

    ghost invariant = { λ list. AreAlike list.words list.alike.items };
}

impl TypedWords {
    /// No words.
    pub fn new(alloc: Global) -> TypedWords
        ensures { result ≡ [] }
    {
        TypedWords {
            words: List::new(alloc),
            alike: Vec::new(alloc),
        }
    }

    /// The words, and after them those of a group, each with this type, or with none.
    pub fn with_group(
        self,
        group: List<Word>,
        of: &Option<SharedWord>,
    ) -> Result<TypedWords, OutOfMemory>
        ensures { IfOk result (λ all. all ≡ self ++ map (typed of.now) group) }
    {
        let mut all = self;
        let mut is_alike = false;
        for word in group.into_vec() {
            let of = shared(of)?;
            all = all.with(Typed { word, of }, is_alike)?;
            is_alike = true;
        }
        Ok(all)
    }

    /// The words and one more, of which this is known.
    fn with(self, typed: Typed, is_alike: bool) -> Result<TypedWords, OutOfMemory>
        requires { IsTrue is_alike → IsLikeLast (self ++ typed ∷ []) (length self) }
        ensures { IfOk result (λ all. all ≡ self ++ typed ∷ []) }
    {
        let mut words = self.words;
        let mut alike = self.alike;
        alike.push(is_alike)?;
        words.push(typed)?;
        Ok(TypedWords { words, alike })
    }

    /// How many words there are.
    pub fn len(&self) -> usize
        ensures { result ≡ length self.now }
    {
        self.words.len()
    }

    /// The words, in order.
    pub fn as_slice(&self) -> &[Typed]
        ensures { result.now ≡ self.now }
    {
        self.words.as_slice()
    }

    /// Whether the word at a place is known to have the type of the word before it. It is of all words of a group but the first.
    pub fn repeats_type(&self, place: usize) -> bool
        ensures { IsTrue result → IsLikeLast self.now place }
    {
        self.alike.get(place).copied() == Some(true)
    }
}

/// The same type, or none, for one more word.
fn shared(of: &Option<SharedWord>) -> Result<Option<SharedWord>, OutOfMemory>
    ensures { IfOk result (λ same. same ≡ of.now) }
{
    match of {
        Some(word) => Ok(Some(word.share()?)),
        None => Ok(None),
    }
}
