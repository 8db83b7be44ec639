// Runs each function of `pool` at the edges and compares what it leaves with values written by hand. One line a case.
#![tactic(auto)]

use pool::PAGE_SIZE;
use reports::report;

// ---- short pools: what a function makes of the six bytes abcdef; 01234567 to copy from

fn short<F: FnOnce(&mut [u8; 6])>(name: &str, call: F, want: &[u8; 6])
    requires { F.IsAlwaysCallable call }
{
    let mut p = *b"abcdef";
    call(&mut p);
    report(name, p == *want);
}

fn fills() {
    short("fill nothing", |p| pool::fill(p, 2, 0, b'x'), b"abcdef");
    short(
        "fill nothing at the end",
        |p| pool::fill(p, 6, 0, b'x'),
        b"abcdef",
    );
    short("fill first byte", |p| pool::fill(p, 0, 1, b'x'), b"xbcdef");
    short("fill last byte", |p| pool::fill(p, 5, 1, b'x'), b"abcdex");
    short("fill middle", |p| pool::fill(p, 2, 3, b'x'), b"abxxxf");
    short("fill all", |p| pool::fill(p, 0, 6, b'x'), b"xxxxxx");
}

// Into the pool. By hand: a list of cases, each with its numbers in the call itself, so that their bounds need not be asked for.
fn copies_in() {
    short(
        "copy_in nothing",
        |p| pool::copy(p, 6, b"01234567", 8, 0),
        b"abcdef",
    );
    short(
        "copy_in first byte",
        |p| pool::copy(p, 0, b"01234567", 0, 1),
        b"0bcdef",
    );
    short(
        "copy_in last byte",
        |p| pool::copy(p, 5, b"01234567", 7, 1),
        b"abcde7",
    );
    short(
        "copy_in middle",
        |p| pool::copy(p, 1, b"01234567", 3, 2),
        b"a34def",
    );
    short(
        "copy_in all",
        |p| pool::copy(p, 0, b"01234567", 2, 6),
        b"234567",
    );
}

// Out of it. By hand, as `copies_in`.
fn copies_out() {
    short(
        "copy_out nothing",
        |p| pool::copy(p, 6, b"01234567", 8, 0),
        b"abcdef",
    );
    short(
        "copy_out first byte",
        |p| pool::copy(p, 0, b"01234567", 0, 1),
        b"0bcdef",
    );
    short(
        "copy_out last byte",
        |p| pool::copy(p, 5, b"01234567", 7, 1),
        b"abcde7",
    );
    short(
        "copy_out middle",
        |p| pool::copy(p, 3, b"01234567", 5, 2),
        b"abc56f",
    );
    short(
        "copy_out all",
        |p| pool::copy(p, 0, b"01234567", 0, 6),
        b"012345",
    );
}

fn copies_within() {
    short(
        "copy_within nothing",
        |p| pool::copy_within(p, 6, 0, 0),
        b"abcdef",
    );
    short(
        "copy_within to higher",
        |p| pool::copy_within(p, 4, 0, 2),
        b"abcdab",
    );
    short(
        "copy_within to lower",
        |p| pool::copy_within(p, 0, 5, 1),
        b"fbcdef",
    );
    short(
        "copy_within touching, to higher",
        |p| pool::copy_within(p, 3, 0, 3),
        b"abcabc",
    );
    short(
        "copy_within touching, to lower",
        |p| pool::copy_within(p, 0, 3, 3),
        b"defdef",
    );
    short(
        "copy_within overlapping, to lower",
        |p| pool::copy_within(p, 0, 1, 5),
        b"bcdeff",
    );
}

fn moves_within() {
    short(
        "move_within nothing",
        |p| pool::move_within(p, 6, 6, 0),
        b"abcdef",
    );
    short(
        "move_within overlapping, to higher",
        |p| pool::move_within(p, 2, 0, 4),
        b"ababcd",
    );
    short(
        "move_within overlapping, to lower",
        |p| pool::move_within(p, 0, 2, 4),
        b"cdefef",
    );
    short(
        "move_within in place",
        |p| pool::move_within(p, 1, 1, 5),
        b"abcdef",
    );
}

// ---- more bytes than a page has

fn in_page() {
    let mut s = [1u8; 4097];
    s[4095] = 11;
    s[4096] = 12;
    let mut p = [0u8; 4098];
    pool::copy(&mut p, 1, &s, 0, 4096);
    let got = [p[0], p[1], p[4095], p[4096], p[4097]];
    report("copy_in 4096 bytes", got == [0, 1, 1, 11, 0]);
}

fn in_long() {
    let mut s = [1u8; 5001];
    s[0] = 10;
    s[4095] = 11;
    s[4096] = 12;
    s[4999] = 13;
    s[5000] = 14;
    let mut p = [0u8; 6000];
    pool::copy(&mut p, 100, &s, 0, 5000);
    let got = [p[99], p[100], p[4195], p[4196], p[5098], p[5099], p[5100]];
    report("copy_in 5000 bytes", got == [0, 10, 11, 12, 1, 13, 0]);
}

fn out_long() {
    let mut p = [1u8; 4200];
    p[3] = 10;
    p[4098] = 11;
    p[4099] = 12;
    p[4100] = 13;
    let mut d = [0u8; 4200];
    pool::copy(&mut d, 0, &p, 3, 4097);
    let got = [d[0], d[1], d[4094], d[4095], d[4096], d[4097]];
    report("copy_out 4097 bytes", got == [10, 1, 1, 11, 12, 0]);
}

// The two parts touch.
fn within_long() {
    let mut p = [1u8; 10001];
    p[0] = 10;
    p[4095] = 11;
    p[4096] = 12;
    p[4999] = 13;
    p[9999] = 14;
    p[10000] = 15;
    pool::copy_within(&mut p, 5000, 0, 5000);
    let got = [
        p[4999], p[5000], p[9095], p[9096], p[9998], p[9999], p[10000],
    ];
    report("copy_within 5000 bytes", got == [13, 10, 11, 12, 1, 13, 15]);
}

// ---- pools of three frames, of ones, of twos and of threes

fn three() -> [u8; 12288] {
    let mut p = [1; 12288];
    pool::fill(&mut p, 4096, 4096, 2);
    pool::fill(&mut p, 8192, 4096, 3);
    p
}

// Whether what is shown is a frame that holds b in each byte; nothing, where there is no b.
fn holds(shown: &[u8], byte: Option<u8>) -> bool {
    match byte {
        Some(b) => shown == [b; PAGE_SIZE].as_slice(),
        None => shown.is_empty(),
    }
}

fn frames_are(name: &str, p: &[u8], want: &[u8; 3]) {
    let mut frames = want.iter().enumerate();
    report(
        name,
        frames.all(|(f, b)| holds(pool::show_ref(p, Some(f)), Some(*b))),
    );
}

// What a function makes of them.
fn framed<F: FnOnce(&mut [u8; 12288])>(name: &str, call: F, want: &[u8; 3])
    requires { F.IsAlwaysCallable call }
{
    let mut p = three();
    call(&mut p);
    frames_are(name, &p, want);
}

fn frames() {
    framed(
        "copy_frame first to last",
        |p| pool::copy_frame(p, 2, 0),
        &[1, 2, 1],
    );
    framed(
        "copy_frame last to first",
        |p| pool::copy_frame(p, 0, 2),
        &[3, 2, 3],
    );
    framed(
        "copy_frame to the next",
        |p| pool::copy_frame(p, 1, 0),
        &[1, 1, 3],
    );
    framed(
        "copy_frame to itself",
        |p| pool::copy_frame(p, 1, 1),
        &[1, 2, 3],
    );
    framed("zero_frame first", |p| pool::zero_frame(p, 0), &[0, 2, 3]);
    framed("zero_frame middle", |p| pool::zero_frame(p, 1), &[1, 0, 3]);
    framed("zero_frame last", |p| pool::zero_frame(p, 2), &[1, 2, 0]);
}

// ---- what is shown, of a pool that is read and of one that is written

fn shown(name: &str, p: &mut [u8], frame: Option<usize>, want: Option<u8>) {
    let read = holds(pool::show_ref(p, frame), want);
    report(name, read && holds(pool::show(p, frame), want));
}

fn shows() {
    let mut p = three();
    shown("show first frame", &mut p, Some(0), Some(1));
    shown("show last frame", &mut p, Some(2), Some(3));
    shown("show absent", &mut p, None, None);
    shown("show frame outside the pool", &mut p, Some(3), None);
    shown("show frame 2^64 - 1", &mut p, Some(usize::MAX), None);
}

fn shows_small() {
    let mut p = [1; 8191];
    shown("show frame that ends past the pool", &mut p, Some(1), None);
    shown("show in an empty pool", &mut [], Some(0), None);
}

// What is stored in the part shown stands in the pool.
fn show_stored() {
    let mut p = three();
    if let [first, .., last] = pool::show(&mut p, Some(1)) {
        *first = 7;
        *last = 8;
    }
    let got = [p[4095], p[4096], p[4097], p[8190], p[8191], p[8192]];
    report("show and store", got == [1, 7, 2, 2, 8, 3]);
}

// The parts, one after another. By hand: a table of functions and a loop over it say no more than the calls.
fn main() {
    fills();
    copies_in();
    copies_out();
    copies_within();
    moves_within();
    in_page();
    in_long();
    out_long();
    within_long();
    frames();
    shows();
    shows_small();
    show_stored();
}
