//! Names and words: texts that contracts see as lists of octets.
ghost use Rattle.std.specs.Prelude.{◌≡◌, ℕ, List, IfOk, nat_eq};
ghost use Rattle.std.specs.Cmp.{partial_equiv_from_equiv, nat_eq_equiv};
ghost use Rattle.std.specs.Cmp.Lexicographic.{pointwise, lists_per, nat_list_eq_equiv};
ghost use Rattle.cal_base.specs.Texts.Text.{raised_all, IsRaised};

use crate::letters;
use crate::list::Octets;
use crate::no_memory::NoMemory;
use std::alloc::{AllocError, Global};
use std::convert::AsStr;
use std::marker::Model;

/// A name whose ASCII letters are upper case, as names of components, properties and parameters
/// are compared without case (RFC 5545, 2). Contracts see the octets.
#[derive(Drop)]
pub struct Name {
    octets: Octets,
}

impl Model for Name {
    ghost Value = { List ℕ };

    ghost view = { λ n. n.octets };

    ghost invariant = { λ n. IsRaised n.octets };
}

impl Name {
    /// The text with its ASCII letters raised to upper case.
    pub fn of(alloc: Global, text: &[u8]) -> Result<Name, NoMemory>
        ensures { IfOk result (λ n. n ≡ raised_all text.now) }
    {
        let octets = letters::raised_all(alloc, text)?;
        Ok(Name { octets })
    }

    /// The octets. (That none of them is a lower-case letter holds of every name.)
    pub fn as_slice(&self) -> &[u8]
        ensures octets { result.now ≡ self.now }
        ensures raised { IsRaised self.now }
    {
        self.octets.as_slice()
    }
}

impl PartialEq for Name {
    ghost eq = { pointwise nat_eq };

    ghost laws = { lists_per (partial_equiv_from_equiv nat_eq_equiv) };

    fn eq(&self, other: &Self) -> bool {
        self.octets == other.octets
    }
}

impl Eq for Name {
    ghost laws = { nat_list_eq_equiv };
}

impl Clone for Name {
    ghost is_clone = { λ x y. y ≡ x };

    fn clone(&self) -> Result<Name, AllocError> {
        let octets = self.octets.clone()?;
        Ok(Name { octets })
    }
}

/// A word of a command line: UTF-8 that contracts see as its octets.
#[derive(Drop)]
pub struct Word {
    text: String,
}

impl Model for Word {
    ghost use Rattle.std.specs.Prelude.{List, ℕ, string_bytes};

    ghost Value = { List ℕ };

    ghost view = { λ w. string_bytes w.text };
}

impl Word {
    /// A copy of the text.
    pub fn of(alloc: Global, text: &str) -> Result<Word, NoMemory>
        ensures { IfOk result (λ w. w ≡ text.now) }
    {
        let Ok(text) = String::from_str(alloc, text) else {
            return Err(NoMemory);
        };
        Ok(Word { text })
    }

    /// The text.
    pub fn as_str(&self) -> &str
        ensures { result.now ≡ self.now }
    {
        self.text.as_str()
    }
}

impl AsStr for Word {
    ghost text = { λ w. w };

    fn as_str(&self) -> &str {
        self.text.as_str()
    }
}
