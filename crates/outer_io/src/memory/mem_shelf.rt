ghost use Rattle.std.specs.Prelude.{◌≡◌, ℕ, ◌^◌, ◌<◌, ◌≤◌, ◌⊎◌, ◌↔◌, [], ◌++◌, length, take, drop, min, Contains, Option, None, Some, IfOk, IfSome, OnOk, OnErr, IsErr, IsNone, position, string_bytes, bytes_eq};
ghost use Rattle.outer_io.specs.Faults.{Rose, next_count};
ghost use Rattle.outer_io.specs.Texts.{text_named};

use crate::memory::calls::Calls;
use crate::shelf::{Failed, Shelf};
use std::marker::Model;

/// Texts in memory, for tests.
#[derive(Drop)]
pub struct MemShelf {
    texts: Vec<(String, Vec<u8>)>,
    place: Option<Place>,
    most: usize,
    calls: Calls,
}

/// Where the next read begins.
#[derive(Clone, Copy)]
struct Place {
    text: usize,
    offset: usize,
}

impl Model for MemShelf {
    ghost use Rattle.std.specs.Prelude.{◌≤◌};
    ghost use Rattle.outer_io.specs.Ties.MemShelf.{MemShelfState, shown_texts, left_at, IsPlaceIn};

    ghost Value = { MemShelfState };

    ghost view = { λ s. record {
      texts = shown_texts s.texts.items;
      left = left_at (shown_texts s.texts.items) s.place;
      most = s.most;
      fails = s.calls.fails.items;
      calls = s.calls.made;
      faults = s.calls.faults;
    } };

    ghost invariant = { λ s. (1 ≤ s.most) × IsPlaceIn (shown_texts s.texts.items) s.place };
}

impl MemShelf {
    ghost use Rattle.outer_io.specs.Ties.MemShelf.{shown_texts};

    /// A shelf of these texts, that moves at most `most` bytes a call. Its calls are numbered from 1 in order, and those
    /// whose number is in `fails` fail. Of two texts with one name the first counts.
    pub fn new(texts: Vec<(String, Vec<u8>)>, most: usize, fails: Vec<u64>) -> MemShelf
        requires { 1 ≤ most }
        ensures { result ≡ record {
          texts = shown_texts texts.items;
          left = [];
          most = most;
          fails = fails.items;
          calls = 0;
          faults = 0;
        } }
    {
        MemShelf {
            texts,
            place: None,
            most,
            calls: Calls::new(fails),
        }
    }

    // The rest of the text begun last.
    fn rest(&self) -> &[u8]
        ensures { result.now ≡ self.now.left }
    {
        match self.place {
            Some(place) => &self.texts[place.text].1[place.offset..],
            None => &[],
        }
    }

    // Goes past some bytes of the rest.
    fn advance(&mut self, count: usize)
        requires { count ≤ length self.old.left }
        ensures { self.new ≡ record self.old { left = drop count self.old.left } }
    {
        if let Some(place) = &mut self.place {
            place.offset += count;
        }
    }
}

impl Shelf for MemShelf {
    ghost use Rattle.std.specs.Prelude.{Some};

    ghost texts = { λ s. Some s.texts };

    ghost left = { λ s. Some s.left };

    ghost faults = { λ s. s.faults };

    fn begin(&mut self, name: &str) -> Result<(), Failed>
        // A listed call fails, and so does one whose name is not among the texts.
        ensures fails { IsErr result ↔ (Contains self.old.fails (next_count self.old.calls)
            ⊎ IsNone (text_named name.now self.old.texts)) }
        ensures begun { OnOk result (IfSome (text_named name.now self.old.texts) (λ text.
            self.new ≡ record self.old { left = text; calls = next_count self.old.calls })) }
        ensures failed { OnErr result (self.new ≡ record self.old
            { calls = next_count self.old.calls; faults = next_count self.old.faults }) }
        ensures counted { OnErr result (Rose self.old.faults self.new.faults) }
        ensures never_falls { self.old.faults ≤ self.new.faults }
        ensures count_fits { self.new.faults < 2 ^ 64 }
    {
        self.calls.begin()?;
        match text_index(&self.texts, name) {
            Some(text) => {
                self.place = Some(Place { text, offset: 0 });
                Ok(())
            }
            None => Err(Failed::count(&mut self.calls.faults)),
        }
    }

    fn read(&mut self, buf: &mut [u8]) -> Result<usize, Failed>
        requires { 0 < length buf.old }
        ensures fails { IsErr result ↔ Contains self.old.fails (next_count self.old.calls) }
        ensures count { IfOk result (λ n. n ≡ min (min (length self.old.left) (length buf.old)) self.old.most) }
        ensures moved { IfOk result (λ n. buf.new ≡ take n self.old.left ++ drop n buf.old) }
        ensures after { IfOk result (λ n. self.new ≡ record self.old
            { left = drop n self.old.left; calls = next_count self.old.calls }) }
        ensures failed { OnErr result (self.new ≡ record self.old
            { calls = next_count self.old.calls; faults = next_count self.old.faults }) }
        ensures nothing_moved { OnErr result (buf.new ≡ buf.old) }
        ensures ended { IfOk result (λ n. n ≡ 0 → self.old.left ≡ []) }
        ensures counted { OnErr result (Rose self.old.faults self.new.faults) }
        ensures never_falls { self.old.faults ≤ self.new.faults }
        ensures count_fits { self.new.faults < 2 ^ 64 }
    {
        self.calls.begin()?;
        let rest = self.rest();
        let count = rest.len().min(buf.len()).min(self.most);
        buf[..count].copy_from_slice(&rest[..count]);
        self.advance(count);
        Ok(count)
    }
}

// The index of the first text of that name.
fn text_index(texts: &[(String, Vec<u8>)], name: &str) -> Option<usize>
    ensures { result ≡ position (λ text. bytes_eq (string_bytes text.0) name.now) texts.now }
{
    texts.iter().position(|text| text.0.as_str() == name)
}
