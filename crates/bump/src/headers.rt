// The headers of a region: eight bytes before each block, its length and its state.
ghost use Rattle.std.specs.Prelude.{◌≡◌, ◌+◌, ◌≤◌, length};

use region::{used_span, word};

// The states of a block, by the numbers that headers have for them.
#[derive(Clone, Copy, PartialEq, Eq)]
pub(crate) enum State {
    Live = 1,
    Ended = 2,
}

impl State {
    ghost use Rattle.bump.specs.Headers.{Numbers};

    // The state that a number stands for, if it does for one. No TryFrom: nothing would read its error. A boundary tag has other states.
    fn of(number: u32) -> Option<State>
        ensures { Numbers number result }
    {
        match number {
            1 => Some(State::Live),
            2 => Some(State::Ended),
            _ => None,
        }
    }
}

// A header that was read, with where its block starts.
#[derive(Clone, Copy)]
pub(crate) struct Header {
    start: u32,
    length: u32,
    state: State,
    ghost fits: { start + length ≤ 65536 },
}

impl Header {
    ghost use Rattle.std.specs.Prelude.{◌==◌, ◌&&◌, nat_le, nat_lt};
    ghost use Rattle.bump.specs.Headers.{number};

    // The block, as its address and length.
    pub(crate) fn block(self) -> (u32, u32)
        ensures { result ≡ (self.start, self.length) }
    {
        (self.start, self.length)
    }

    pub(crate) fn end(self) -> u32
        ensures { result ≡ self.start + self.length }
    {
        self.start + self.length
    }

    pub(crate) fn is_live(self) -> bool
        ensures { result ≡ (number self.state == 1) }
    {
        self.state == State::Live
    }

    pub(crate) fn covers(self, a: u32) -> bool
        ensures { result ≡ (nat_le self.start a && nat_lt a (self.start + self.length)) }
    {
        (self.start..self.end()).contains(&a)
    }
}

// The headers from `at` on, in turn. They end before the first that is not one of a block that ends by the bound.
#[derive(Drop)]
pub(crate) struct Headers<'a> {
    region: &'a [u8],
    bound: u32,
    at: u32,
    ghost within: { (bound ≤ length region.now) × (bound ≤ 65536) },
}

impl<'a> Headers<'a> {
    ghost use Rattle.bump.specs.Table.{table, placed};
    ghost use Rattle.bump.specs.Headers.{Reads, left};

    // All headers: blocks end by the cursor and by the span.
    pub(crate) fn new(region: &'a [u8], cursor: u32) -> Headers<'a>
        ensures { left result ≡ placed (table region.now cursor) 0 }
    {
        Headers {
            region,
            bound: cursor.min(used_span(region)),
            at: 0,
        }
    }

    // The header at `at`; none where the headers end.
    fn header(&self) -> Option<Header>
        ensures { Reads self.now.region.now self.now.bound self.now.at result }
    {
        if self.bound.saturating_sub(self.at) < 16 {
            return None;
        }
        let length = word(self.region, self.at);
        let state = State::of(word(self.region, self.at + 4))?;
        let start = self.at + 8;
        if length < 8 || length % 8 != 0 || length > self.bound - start {
            return None;
        }
        Some(Header {
            start,
            length,
            state,
        })
    }
}

impl<'a> Iterator for Headers<'a> {
    ghost use Rattle.std.specs.Iterator.{YieldsFirstBy, item_count};
    ghost use Rattle.bump.specs.Headers.{seen, left};

    type Item = Header;

    ghost next_gives = { YieldsFirstBy seen left };

    ghost remaining = { item_count left };

    fn next(&mut self) -> Option<Header> {
        let header = self.header()?;
        self.at = header.end();
        Some(header)
    }
}
