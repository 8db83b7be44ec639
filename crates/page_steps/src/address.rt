// WHERE A PAGE IS: an object's page, of those that an object has.

ghost use Rattle.std.specs.Prelude.{◌≡◌, ◌/◌, ◌^◌, ◌<◌};
ghost use Rattle.ranges.specs.Range.{line};

use page::PageNumber;
use table::line_of;

// A page of an object.
#[derive(Clone, Copy)]
pub struct PageAddress {
    pub object: u32,
    pub page: PageNumber,
    pub ghost in_object: { page.0 < 262144 },
}

impl PageAddress {
    // The page that a byte of an object lies in.
    pub fn from_offset(object: u32, offset: usize) -> PageAddress
        requires { offset < 1073741824 }
        ensures { (result.object ≡ object) × (result.page.0 ≡ offset / 4096) }
    {
        PageAddress {
            object,
            page: PageNumber::from_offset(offset),
        }
    }

    // Its place on the line of all pages; objects are fewer than 2^32.
    pub fn line(self) -> usize
        ensures line { result ≡ line self.object self.page.0 }
        ensures below { result < 2 ^ 50 }
    {
        line_of(self.object, self.page)
    }
}
