// The log of a round, read off the last words of its table.
ghost use Rattle.std.specs.Prelude.{◌≡◌, ◌≤◌, ◌<◌, ◌+◌, ℕ, [], List, length, slice_index, vec_capacity, IfSome, IfNone};
ghost use Rattle.std.specs.Slots.{IsFull, slots_items, slots_len};
ghost use Rattle.iscc_header.specs.declared.unit.Unit64.{Unit64 as AUnit64};
ghost use Rattle.reg_words.specs.Memory.{CODE, LOG, NOTE, areas_of, size, start, whole};
ghost use Rattle.reg_rule.specs.declared.view.Key.{Key as AKey};
ghost use Rattle.reg_rule.specs.declared.view.Place.{Place};
ghost use Rattle.reg_rule.specs.Log.{At, IsDecl, updates};
ghost use Rattle.reg_rule.specs.ReadersLog.{IsLogOf, cells_of};
ghost use Rattle.reg_rule.specs.inner.LastWords.{areas_in, cells_in};

use atomic_table::Closed;
use iscc_header::{Items, Unit64};
use reg_model::{Sizes, Update, Updates};
use reg_words::{Areas, LogWord};
use std::alloc::Global;

/// The updates at the filled places, in order. There is room for them: no memory is taken.
pub(crate) fn last_updates(words: &Closed<(), Global>, sizes: &Sizes, room: Vec<Update>) -> Updates
    requires full { IsFull words.now.words }
    requires count { slots_len words.now.words ≡ 1 + whole (areas_in sizes.now) }
    requires room { (room.items ≡ []) × (sizes.now.log ≤ vec_capacity room) }
    ensures { (key : AKey) (log : List Place) → key.sizes ≡ sizes.now → key.entries ≡ sizes.now.entries → IsLogOf key (cells_of key (slots_items words.now.words)) log → result ≡ updates log }
{
    let areas = Areas::of(sizes.entries(), sizes.log(), sizes.bits(), sizes.callers());
    let mut log = room;
    for place in 0..sizes.log() {
        let Some(update) = update_at(words, sizes, &areas, place) else {
            break;
        };
        let _ = log.push(update);
    }
    Items::from_vec(log)
}

// The update at a place, or that the place is empty.
fn update_at(words: &Closed<(), Global>, sizes: &Sizes, areas: &Areas, place: u32) -> Option<Update>
    requires full { IsFull words.now.words }
    requires count { slots_len words.now.words ≡ 1 + whole (areas_in sizes.now) }
    requires areas { areas.now ≡ areas_of (areas_in sizes.now) }
    requires place { place < sizes.now.log }
    ensures found { (key : AKey) (log : List Place) → IsLogOf key (cells_in sizes.now (slots_items words.now.words)) log → IfSome result (λ update. (p : Place) × At log place p × (p.update ≡ update)) }
    ensures none { (key : AKey) (log : List Place) → IsLogOf key (cells_in sizes.now (slots_items words.now.words)) log → IfNone result (length log ≤ place) }
{
    let word = cell(words, areas.log, sizes.log(), place);
    match LogWord::unpack(word)? {
        LogWord::Decl { kind, entry, .. } => {
            let body = body_at(words, sizes, areas, place, entry);
            Some(Update::Decl(Unit64 { kind, body }))
        }
        LogWord::Wd { id, .. } => Some(Update::Wd(id)),
    }
}

// The body of the unit that was declared at a place, in this entry: the note of the place has it, but at the last filled
// place the code of the entry does.
fn body_at(words: &Closed<(), Global>, sizes: &Sizes, areas: &Areas, place: u32, entry: u32) -> u64
    requires full { IsFull words.now.words }
    requires count { slots_len words.now.words ≡ 1 + whole (areas_in sizes.now) }
    requires areas { areas.now ≡ areas_of (areas_in sizes.now) }
    requires place { place < sizes.now.log }
    ensures { (key : AKey) (log : List Place) (unit : AUnit64) → IsLogOf key (cells_in sizes.now (slots_items words.now.words)) log → IsDecl log place unit entry → result ≡ unit.body }
{
    if cell(words, areas.log, sizes.log(), place + 1) == 0 {
        cell(words, areas.code, sizes.entries(), entry)
    } else {
        cell(words, areas.note, sizes.log(), place)
    }
}

// The word at a place of an area with so many words from `first` on, and 0 past its end.
fn cell(words: &Closed<(), Global>, first: u32, count: u32, place: u32) -> u64
    requires full { IsFull words.now.words }
    requires inside { first + count ≤ slots_len words.now.words }
    ensures inside { place < count → result ≡ slice_index (slots_items words.now.words) (first + place) }
    ensures past { count ≤ place → result ≡ 0 }
{
    if place >= count {
        return 0;
    }
    words.word(first as usize + place as usize)
}
