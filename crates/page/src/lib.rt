#![tactic(auto)]

ghost use Rattle.std.specs.Prelude.{◌≡◌, ◌+◌, ◌-◌, ◌*◌, ◌/◌, ◌%◌, ◌≤◌, min};

// A page of an object, counted from 0: "a number of its own, never mixed with a byte offset or a frame number".
#[derive(Clone, Copy, PartialEq, Eq)]
pub struct PageNumber(pub usize);

// A span of bytes: those before its first page edge, its whole pages, those after the last edge.
#[derive(Clone, Copy, PartialEq, Eq)]
pub struct Span {
    pub head: usize,
    pub whole: usize,
    pub tail: usize,
}

impl PageNumber {
    // The bytes of a page.
    pub const PAGE_SIZE: usize = 4096;

    // The bytes of an object, and its pages.
    pub const OBJECT_SIZE: usize = 1073741824;

    pub const COUNT: usize = 262144;

    // The last page of an object.
    pub fn meta_page() -> PageNumber
        ensures { result.0 ≡ 262143 }
    {
        PageNumber(PageNumber::COUNT - 1)
    }

    // The page that a byte offset lies in.
    pub fn from_offset(offset: usize) -> PageNumber
        ensures { result.0 ≡ offset / 4096 }
    {
        PageNumber(offset / PageNumber::PAGE_SIZE)
    }

    // The place of a byte offset within its page.
    pub fn place(offset: usize) -> usize
        ensures { result ≡ offset % 4096 }
    {
        offset % PageNumber::PAGE_SIZE
    }

    // How many of the n bytes from a byte offset on lie in its page.
    pub fn in_page(offset: usize, n: usize) -> usize
        ensures { result ≡ min n (4096 - offset % 4096) }
    {
        n.min(PageNumber::PAGE_SIZE - offset % PageNumber::PAGE_SIZE)
    }

    // The span of the n bytes from a byte offset on; one inside a page with both ends off the page's edges is all head.
    pub fn span_of(offset: usize, n: usize) -> Span
        ensures { (result.head ≡ min n ((4096 - offset % 4096) % 4096)) × (result.whole ≡ (n - result.head) / 4096) × (result.tail ≡ (n - result.head) % 4096) }
    {
        let head = PageNumber::to_edge(offset, n);
        Span {
            head,
            whole: (n - head) / PageNumber::PAGE_SIZE,
            tail: (n - head) % PageNumber::PAGE_SIZE,
        }
    }

    // How many of the n bytes from a byte offset on lie before the first page edge; none if the offset is one.
    pub fn to_edge(offset: usize, n: usize) -> usize
        ensures { result ≡ min n ((4096 - offset % 4096) % 4096) }
    {
        n.min((PageNumber::PAGE_SIZE - offset % PageNumber::PAGE_SIZE) % PageNumber::PAGE_SIZE)
    }

    // The byte offset at which a page begins.
    pub fn as_byte_offset(self) -> usize
        requires { self.0 ≤ 262144 }
        ensures { result ≡ self.0 * 4096 }
    {
        self.0 * PageNumber::PAGE_SIZE
    }

    // The page n pages after this one.
    pub fn offset(self, n: usize) -> PageNumber
        requires { self.0 + n ≤ 262144 }
        ensures { result.0 ≡ self.0 + n }
    {
        PageNumber(self.0 + n)
    }

    // How many pages lie from an earlier page up to this one. For a caller of the crate: the store tells a range by its first page and its length.
    pub fn minus(self, earlier: PageNumber) -> usize
        requires { earlier.0 ≤ self.0 }
        ensures { result ≡ self.0 - earlier.0 }
    {
        self.0 - earlier.0
    }
}
