// A page of lines, that a text is filled with.
ghost use Rattle.std.specs.Prelude.{◌≡◌};
ghost use Rattle.loes.specs.Read.{entry_in};
ghost use Rattle.printing.specs.Standing.{StandsAt};

use crate::{LINE, put_member};
use bits::MemberIndex;
use cursor::Cursor;
use encoding::Encoding;
use encoding::opening::Opened;

// How far a page has come in an encoding: the cursor, the index of the member that it goes to next, and the bytes of text.
#[derive(Clone, Copy)]
pub struct Page<'a> {
    pub opened: Opened<'a>,
    pub cursor: Cursor,
    pub index: MemberIndex,
    pub length: usize,
    ghost stands: { StandsAt (entry_in opened.bytes.now) cursor index.0 },
}

impl<'a> Page<'a> {
    ghost use Rattle.std.specs.Prelude.{◌+◌, ◌<◌, ◌≤◌, length};
    ghost use Rattle.printing.specs.Text.{max_line};
    ghost use Rattle.printing.specs.Pages.{come, PutsNext, Fills, Full};

    // Before the first member, with no text.
    pub fn first(opened: Opened<'a>) -> Page<'a>
        ensures { (result.opened ≡ opened.entry) × (result.index.0 ≡ 0) × (result.length ≡ 0) }
    {
        Page {
            opened,
            cursor: Cursor::before(),
            index: MemberIndex(0),
            length: 0,
        }
    }

    // One more line: a step, which is not refused, and the line of the member it went to.
    fn put_next(&mut self, text: &mut [u8])
        requires { (self.old.index.0 < self.old.opened.encoding.count) × (self.old.length + max_line ≤ length text.old) }
        ensures { (self.new.opened ≡ self.old.opened) × PutsNext (entry_in self.old.opened.bytes.now) (come self.old) text.old (come self.new) text.new }
    {
        let mut key = [0u8; Encoding::MAX_KEY_BYTES];
        let written = cursor::advance(self.opened, &mut self.cursor, &mut key).unwrap();
        self.length = put_member(text, self.length, self.index, &key[..written]);
        self.index = MemberIndex(self.index.0 + 1);
    }

    // More lines, while members are left and there is room for any line: no `for`, since either may end first.
    pub fn fill(&mut self, text: &mut [u8])
        requires { self.old.length ≤ length text.old }
        ensures { (self.new.opened ≡ self.old.opened) × Fills (entry_in self.old.opened.bytes.now) (come self.old) text.old (come self.new) text.new × Full (entry_in self.old.opened.bytes.now) (come self.new) text.new }
    {
        while self.index.0 < self.opened.encoding.count && LINE <= text.len() - self.length {
            self.put_next(text);
        }
    }
}
