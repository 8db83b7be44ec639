// The bytes of the lent pool. Frame f is the 4,096 bytes from f × 4,096.
// By hand: `pool`, `at`, `n` and `at + n ≤ length pool`, or `at`, `from`, `n`: a slice of the part would do for the bytes, but what is promised is told of the whole pool,
// which is what the callers' proofs speak of.
#![tactic(auto)]

ghost use Rattle.std.specs.Prelude.{◌≡◌, ◌+◌, ◌*◌, ◌≤◌, length, drop};
ghost use Rattle.std.proofs.Math.Seq.{paste};
ghost use Rattle.pool.specs.Bytes.{address, filled, frame_copied, frame_zeroed, shown, shown_from};

// By hand: the pool knows pages by their size alone, and no page numbers.
pub const PAGE_SIZE: usize = 4096;

// n bytes of the pool from index at set to b.
#[tactic(auto, unfolding(crate::specs::Bytes::filled))]
pub fn fill(pool: &mut [u8], at: usize, n: usize, b: u8)
    requires { at + n ≤ length pool.old }
    ensures { pool.new ≡ filled pool.old at n b }
{
    pool[at..at + n].fill(b);
}

// n bytes of s from index from stored in d from index at: into the pool, or out of it.
pub fn copy(d: &mut [u8], at: usize, s: &[u8], from: usize, n: usize)
    requires { (at + n ≤ length d.old) × (from + n ≤ length s.now) }
    ensures { d.new ≡ paste d.old at (drop from s.now) n }
{
    d[at..at + n].copy_from_slice(&s[from..from + n]);
}

// n bytes of the pool from index from to index at. The two parts may overlap: at then holds what stood at from. The store moves a page at most, by `move_within`; this
// is for a caller of the crate, as crates/pool_cases is, that moves more.
pub fn copy_within(pool: &mut [u8], at: usize, from: usize, n: usize)
    requires { (at + n ≤ length pool.old) × (from + n ≤ length pool.old) }
    ensures { pool.new ≡ paste pool.old at (drop from pool.old) n }
{
    pool.copy_within(from..from + n, at);
}

// The same of at most a page's bytes. By hand: by way of a local array, which the compiler makes one call of memmove, it takes half the time of `copy_within`.
pub fn move_within(pool: &mut [u8], at: usize, from: usize, n: usize)
    requires { (at + n ≤ length pool.old) × (from + n ≤ length pool.old) × (n ≤ 4096) }
    ensures { pool.new ≡ paste pool.old at (drop from pool.old) n }
{
    let mut page = [0; PAGE_SIZE];
    page[..n].copy_from_slice(&pool[from..from + n]);
    pool[at..at + n].copy_from_slice(&page[..n]);
}

// The bytes of frame from stored in frame to.
pub fn copy_frame(pool: &mut [u8], to: usize, from: usize)
    requires { (to * 4096 + 4096 ≤ length pool.old) × (from * 4096 + 4096 ≤ length pool.old) }
    ensures { pool.new ≡ frame_copied 4096 pool.old to from }
{
    move_within(pool, to * PAGE_SIZE, from * PAGE_SIZE, PAGE_SIZE);
}

// Frame f filled with zeros.
pub fn zero_frame(pool: &mut [u8], f: usize)
    requires { f * 4096 + 4096 ≤ length pool.old }
    ensures { pool.new ≡ frame_zeroed 4096 pool.old f }
{
    fill(pool, f * PAGE_SIZE, PAGE_SIZE, 0);
}

// A frame as that part of the pool; an empty part where there is none or it does not lie in the pool. The store's `show` is of a pool that is read; this is for a caller
// of the crate, as crates/pool_cases is, that writes to the part.
pub fn show(pool: &mut [u8], frame: Option<usize>) -> &mut [u8]
    ensures result_value { result.now ≡ shown 4096 pool.old frame }
    ensures ref_ptr_value { result.ref_ptr ≡ address pool.entry.ref_ptr (shown_from 4096 pool.old frame) }
{
    match frame {
        Some(f) if f < pool.len() / PAGE_SIZE => &mut pool[f * PAGE_SIZE..(f + 1) * PAGE_SIZE],
        _ => &mut pool[..0],
    }
}

// The same of a pool that is only read. By hand: no type stands for both `&` and `&mut`.
pub fn show_ref(pool: &[u8], frame: Option<usize>) -> &[u8]
    ensures result_value { result.now ≡ shown 4096 pool.now frame }
    ensures ref_ptr_value { result.ref_ptr ≡ address pool.entry.ref_ptr (shown_from 4096 pool.now frame) }
{
    match frame {
        Some(f) if f < pool.len() / PAGE_SIZE => &pool[f * PAGE_SIZE..(f + 1) * PAGE_SIZE],
        _ => &pool[..0],
    }
}
