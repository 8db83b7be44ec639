// Runs the calls on a good store spoiled in each single way, and on sound stores at the edges. One line a case.
#![tactic(auto)]

use samples::{
    FREE, blank, full, many, nothing, place, ranged, single, sound, spoiled, with_counts,
    with_place, with_range, with_ranges, with_word,
};
use store::Store;

// "1 to 1,024 frames"; "at most 512 ranges"
fn spoiled_counts() {
    spoiled("0 frames", blank(0, &[0]));
    spoiled("0 frames of the good store", with_counts(0, 3, 3));
    spoiled(
        "1025 frames, all free",
        blank(1025, &[18446744073709551615; 16]),
    );
    spoiled(
        "the last number of frames",
        blank(18446744073709551615, &[18446744073709551615; 16]),
    );
    sound("512 ranges are sound", full(512), 0, 512);
    spoiled("513 ranges", full(513));
    spoiled("the last number of ranges", full(18446744073709551615));
}

// "Each range belongs to a live object, has length at least 1"
fn spoiled_names() {
    spoiled("name 0 is not live", with_counts(4, 2, 3));
    spoiled("name 1 is not live", with_counts(4, 1, 3));
    spoiled("a range of name 2", with_range(2, many(2, 5, 3, 0, 2)));
    spoiled("a range of name 32", with_range(2, many(32, 5, 3, 0, 2)));
    spoiled(
        "a range of the last name",
        with_range(2, many(4294967295, 5, 3, 0, 2)),
    );
    spoiled("length 0", with_range(2, many(1, 5, 0, 0, 2)));
}

// "ends by page 262,144"
fn spoiled_ends() {
    sound(
        "an end at 262144 is sound",
        with_range(2, many(1, 262142, 2, 0, 2)),
        2,
        3,
    );
    spoiled("an end at 262145", with_range(2, many(1, 262143, 2, 0, 2)));
    spoiled("a start at 262144", with_range(2, many(1, 262144, 1, 0, 2)));
    spoiled(
        "an end past the last number",
        with_range(2, many(1, 18446744073709551615, 2, 0, 2)),
    );
    spoiled(
        "a length of 262145",
        with_range(2, many(1, 0, 262145, 0, 2)),
    );
    sound(
        "a length of 262144 is sound",
        with_range(2, many(1, 0, 262144, 0, 2)),
        2,
        3,
    );
}

// "overlaps no other of its object"; "Ranges stand in the table by object, then start, from slot 0"
fn spoiled_order() {
    sound(
        "ranges that touch are sound",
        with_range(2, many(0, 8, 3, 0, 2)),
        2,
        3,
    );
    spoiled("an overlap by one page", with_range(2, many(0, 7, 3, 0, 2)));
    spoiled(
        "one range inside another",
        with_range(2, many(0, 6, 1, 0, 2)),
    );
    spoiled("one range twice", with_range(2, many(0, 5, 3, 0, 2)));
    spoiled(
        "objects in the wrong order",
        with_ranges(1, many(1, 5, 3, 0, 2), 2, many(0, 5, 3, 0, 2)),
    );
    spoiled(
        "starts in the wrong order",
        with_ranges(0, many(0, 5, 3, 0, 2), 1, single(0, 0, 1, 0, 1)),
    );
    spoiled(
        "starts in the wrong order, in slots 1 and 2",
        with_range(2, many(0, 2, 3, 0, 2)),
    );
}

// "`Nothing` stands only in unused slots"
fn spoiled_nothings() {
    spoiled("nothing in a used slot", with_range(2, nothing(1, 5, 3, 0)));
    spoiled(
        "a zero range in a used slot",
        with_range(2, nothing(0, 0, 0, 0)),
    );
    spoiled("a zero range counted in slot 3", with_counts(4, 3, 4));
}

// "A `Single` range has length 1 and offset 0, its frame at index 0". Backings are numbered from 1.
fn spoiled_singles() {
    spoiled("a single of length 2", with_range(0, single(0, 0, 2, 0, 1)));
    spoiled(
        "a single of length 0",
        with_ranges(0, single(0, 0, 0, 0, 1), 2, single(1, 5, 1, 0, 1)),
    );
    spoiled(
        "a single of offset 1",
        with_ranges(0, single(0, 0, 1, 1, 1), 2, single(1, 5, 1, 0, 1)),
    );
    sound(
        "a single held twice is sound",
        with_range(2, single(1, 5, 1, 0, 1)),
        2,
        3,
    );
    spoiled("a single without its frame", with_place(3, FREE, 11));
    spoiled(
        "a single of another number",
        with_range(2, single(1, 5, 1, 0, 3)),
    );
    spoiled("a single of number 0", with_range(2, single(1, 5, 1, 0, 0)));
    spoiled("a vector of number 0", with_range(2, many(1, 5, 3, 0, 0)));
}

// "A `Many` range has offset + length at most 1,048,576."; "Ranges that hold one backing agree on its kind."
fn spoiled_vectors() {
    sound(
        "offset + length 1048576 is sound",
        with_range(2, many(1, 5, 3, 1048573, 2)),
        2,
        3,
    );
    spoiled(
        "offset + length 1048577",
        with_range(2, many(1, 5, 3, 1048574, 2)),
    );
    spoiled(
        "the last offset",
        with_range(2, many(1, 5, 3, 4294967295, 2)),
    );
    spoiled(
        "a number as single, then as vector",
        with_range(2, many(1, 5, 3, 0, 1)),
    );
    spoiled("so in slots 0 and 1", with_range(1, many(0, 5, 3, 0, 1)));
    spoiled("a number as vector, then as single", vector_then_single());
}

// Backing 2 as a vector in slot 1 and as a single in slot 2, with a frame at its index 0.
fn vector_then_single() -> Store {
    ranged(with_place(1, place(2, 0), 1), 2, single(1, 5, 1, 0, 2))
}

// "Each vector entry lies in the window of some range that holds the vector."; "no two at the same"
fn spoiled_entries() {
    sound(
        "an entry at the window's first is sound",
        with_place(1, place(2, 0), 1),
        3,
        3,
    );
    sound(
        "an entry at the window's last is sound",
        with_place(1, place(2, 2), 1),
        3,
        3,
    );
    spoiled("an entry past the window", with_place(1, place(2, 3), 1));
    spoiled("an entry of no range", with_place(1, place(3, 0), 1));
    spoiled("an entry past the single", with_place(1, place(1, 1), 1));
    spoiled(
        "an entry at the last index",
        with_place(0, place(2, 4294967295), 2),
    );
    spoiled("two frames at one index", with_place(1, place(2, 1), 1));
    spoiled("two frames of the single", with_place(0, place(1, 0), 2));
}

// "unused slots are zero": of the table
fn spoiled_slots() {
    spoiled(
        "an unused slot with an object",
        with_range(3, nothing(1, 0, 0, 0)),
    );
    spoiled(
        "an unused slot with a start",
        with_range(3, nothing(0, 1, 0, 0)),
    );
    spoiled(
        "an unused slot with a length",
        with_range(3, nothing(0, 0, 1, 0)),
    );
    spoiled(
        "an unused slot with an offset",
        with_range(3, nothing(0, 0, 0, 1)),
    );
    spoiled(
        "an unused slot with a single",
        with_range(3, single(0, 0, 0, 0, 0)),
    );
    spoiled(
        "an unused slot with a vector",
        with_range(3, many(0, 0, 0, 0, 0)),
    );
    spoiled(
        "the last slot with an offset",
        with_range(511, nothing(0, 0, 0, 1)),
    );
    spoiled(
        "the last slot with a vector",
        with_range(511, many(0, 0, 0, 0, 0)),
    );
    spoiled("a range past the count", with_counts(4, 3, 2));
}

// and the places of free frames and of frames beyond the count
fn spoiled_places() {
    spoiled("a free frame with an index", with_place(0, place(0, 1), 3));
    spoiled(
        "a free frame with the last index",
        with_place(1, place(0, 4294967295), 3),
    );
    spoiled("a backing beyond the count", with_place(4, place(2, 0), 3));
    spoiled("an index beyond the count", with_place(4, place(0, 1), 3));
    spoiled(
        "a backing at the last place",
        with_place(1023, place(2, 0), 3),
    );
    spoiled(
        "an index at the last place",
        with_place(1023, place(0, 1), 3),
    );
}

// a frame's bit is set exactly if it is free; "bits of frames beyond the count are clear"
fn spoiled_bits() {
    spoiled("the bit of used frame 2 set", with_word(0, 7));
    spoiled("the bit of used frame 3 set", with_word(0, 11));
    spoiled("the bit of free frame 0 clear", with_word(0, 2));
    spoiled("the bit of free frame 1 clear", with_word(0, 1));
    spoiled("no bit set", with_word(0, 0));
    spoiled("bit 4 set", with_word(0, 19));
    spoiled("bit 63 set", with_word(0, 9223372036854775811));
    spoiled("bit 64 set", with_word(1, 1));
    spoiled("bit 1023 set", with_word(15, 9223372036854775808));
}

// The parts, one after another. By hand: a table of functions and a loop over it say no more than the calls.
fn main() {
    spoiled_counts();
    spoiled_names();
    spoiled_ends();
    spoiled_order();
    spoiled_nothings();
    spoiled_singles();
    spoiled_vectors();
    spoiled_entries();
    spoiled_slots();
    spoiled_places();
    spoiled_bits();
}
