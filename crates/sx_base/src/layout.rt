//! Where pages of their own kind stand in a database.
ghost use Rattle.std.specs.Prelude.{◌≡◌, ◌+◌, ◌<◌, ◌≤◌, ◌^◌, ◌&&◌};
ghost use Rattle.sx_base.specs.Maps.{lock_page_of, is_map_place, is_map_page};

/// The byte of the database file at which locks are taken ("The Lock-Byte Page").
const LOCK_BYTE: u32 = 0x4000_0000;

/// The bytes of one entry of a pointer map ("Pointer Map or Ptrmap Pages").
const ENTRY_LEN: u32 = 5;

/// What the header of one moment says of the placing of its pages ("The Database Header").
#[derive(Clone, Copy, Debug, PartialEq, Eq)]
pub struct Layout {
    /// The size of a page in bytes: a power of two from 512 to 65536.
    pub page_size: u32,
    /// The bytes of a page that are in use, from 480 to the page size: the rest at its end is reserved.
    pub usable: u32,
    /// The size of the database in pages.
    pub pages: u32,
    /// Whether the database has pointer-map pages.
    pub pointer_maps: bool,
    /// The number of the first freelist trunk page, or 0 where the freelist is empty.
    pub free_head: u32,
}

/// The number of the lock-byte page of a database with this page size, the page that holds the byte at 1,073,741,824
/// ("The Lock-Byte Page"). Pages count from 1.
///
/// It is told for every database, also for one that ends before it. The page size isn't 0.
pub fn lock_page(page_size: u32) -> u32
    requires { 0 < page_size }
    ensures { result ≡ lock_page_of page_size }
{
    LOCK_BYTE / page_size + 1
}

impl Layout {
    /// The number of the lock-byte page, also where the database ends before it. The page size isn't 0.
    pub fn lock_page(&self) -> u32
        requires { 0 < self.now.page_size }
        ensures { result ≡ lock_page_of self.now.page_size }
    {
        lock_page(self.page_size)
    }

    /// Whether page `no` is a pointer-map page ("Pointer Map or Ptrmap Pages"). The page size isn't 0.
    ///
    /// Where the database has such pages, they are page 2 and then each page `usable / 5 + 1` pages after another.
    /// Where this rule falls on the lock-byte page, the page after that one is the map in its place; all others stay
    /// where the rule puts them. The answer is told for every number, also past the size.
    #[tactic(auto, unfolding(crate::specs::Maps::is_map_page))]
    pub fn is_map(&self, no: u32) -> bool
        requires { 0 < self.now.page_size }
        ensures { result ≡ (self.now.pointer_maps && is_map_page (lock_page_of self.now.page_size) self.now.usable no) }
    {
        let lock = self.lock_page();
        if !self.pointer_maps || no == lock {
            return false;
        }
        self.is_map_place(no) || (no == lock + 1 && self.is_map_place(lock))
    }

    /// Whether the rule puts a pointer map on page `no`, whatever else stands there.
    fn is_map_place(&self, no: u32) -> bool
        ensures { result ≡ is_map_place self.now.usable no }
    {
        let step = self.usable / ENTRY_LEN + 1;
        no >= 2 && (no - 2) % step == 0
    }
}
