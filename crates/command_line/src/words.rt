//! The words of a command line.

ghost use Rattle.std.specs.Prelude.{◌≡◌, ◌==◌, ◌<◌, ◌^◌, [], ◌∷◌};
ghost use Rattle.std.specs.Prelude.{◌++◌, length, OnOk, OnErr, slice_get, Some, IsUtf8};

use std::alloc::{AllocError, Global};
use std::marker::Model;

/// The words of a command line, without the program's name.
#[derive(Drop)]
pub struct Words {
    alloc: Global,
    words: Vec<String>,
}

impl Model for Words {
    ghost use Rattle.std.specs.Prelude.{ℕ, List, map, string_bytes};

    ghost Value = { List (List ℕ) };

    ghost view = { λ w. map string_bytes w.words.items };
}

impl Words {
    /// No words. It takes no memory.
    pub fn new(alloc: Global) -> Words
        ensures { result ≡ [] }
    {
        Words {
            alloc,
            words: Vec::new(alloc),
        }
    }

    /// Appends a word. Where there is no memory the words are as before.
    pub fn push(&mut self, word: &str) -> Result<(), AllocError>
        ensures ok { OnOk result (self.new ≡ self.old ++ word.now ∷ []) }
        ensures err { OnErr result (self.new ≡ self.old) }
    {
        let text = String::from_str(self.alloc, word)?;
        self.words.push(text)?;
        Ok(())
    }

    /// The number of words.
    pub fn len(&self) -> usize
        ensures number { result ≡ length self.now }
        ensures few { result < 2 ^ 63 }
    {
        self.words.len()
    }

    /// Whether there are no words.
    pub fn is_empty(&self) -> bool
        ensures { result ≡ (length self.now == 0) }
    {
        self.words.is_empty()
    }

    /// The word at a place, counted from 0.
    pub fn word(&self, at: usize) -> &str
        requires { at < length self.now }
        ensures word { slice_get self.now at ≡ Some result.now }
        ensures utf8 { IsUtf8 result.now }
    {
        self.words[at].as_str()
    }
}
