//! Places of a board's words.
ghost use Rattle.segment_layout.specs.Layout.{IsGeometry};

use crate::asserts::same;
use segment_layout::{Item, Part, buffer_words, item_at, place_of, segment_words, words_needed};
use std::process::Abort;

/// So many words have a buffer, a segment and a board of this geometry.
fn have_words(rt: &impl Abort, n: usize, c: usize, h: usize, g: usize, words: [usize; 3])
    requires { IsGeometry n c h g }
{
    let buffer = buffer_words(n, c, h, g);
    let segment = segment_words(n, c, h, g);
    same(rt, [buffer, segment, words_needed(n, c, h, g)], words);
}

#[test]
fn words_of_two_workers(rt: HostRuntime) {
    have_words(&rt, 2, 3, 1, 0, [63, 127, 254]);
    have_words(&rt, 2, 3, 1, 1, [67, 135, 270]);
}

#[test]
fn words_of_large_boards(rt: HostRuntime) {
    let rt = &rt;
    have_words(rt, 16, 256, 32, 0, [2257, 4515, 72_240]);
    have_words(rt, 32, 256, 32, 0, [2273, 4547, 145_504]);
    have_words(rt, 32, 256, 32, 64, [2529, 5059, 161_888]);
}

#[test]
fn places_of_the_second_segment(rt: HostRuntime) {
    let rt = &rt;
    let row = Part::Row { buffer: 1, word: 0 };
    let flag = Part::Flag { buffer: 1 };
    let vector = Part::Vector {
        buffer: 1,
        worker: 1,
    };
    let lent = Part::Lent {
        buffer: 1,
        word: 29,
    };
    same(rt, place_of(2, 3, 1, 0, 1, Part::Number), 127);
    same(rt, place_of(2, 3, 1, 0, 1, row), 191);
    same(rt, place_of(2, 3, 1, 0, 1, flag), 221);
    same(rt, place_of(2, 3, 1, 0, 1, vector), 223);
    same(rt, place_of(2, 3, 1, 0, 1, lent), 253);
}

/// The ups of the gauge are word 30 of the row, and its downs word 31.
#[test]
fn places_of_a_gauge(rt: HostRuntime) {
    let rt = &rt;
    let ups = Part::Row {
        buffer: 0,
        word: 30,
    };
    let downs = Part::Row {
        buffer: 0,
        word: 31,
    };
    same(rt, place_of(2, 3, 1, 1, 0, ups), 31);
    same(rt, place_of(2, 3, 1, 1, 0, downs), 32);
    same(rt, item_at(2, 3, 1, 1, Item::Flag), 32);
}
