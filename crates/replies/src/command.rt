// WHAT A LINE ASKS FOR: one of the calls, with its fields.
ghost use Rattle.std.specs.Prelude.{◌≡◌, [], option_map};
ghost use Rattle.replies.specs.Line.{call_of};
ghost use Rattle.replies.specs.Command.{call_for};
ghost use Rattle.replies.specs.Fields.{Reads, byte_in, number_in, passage_in, call_in};

use page::PageNumber;
use refusals::Passage;

#[derive(Clone, Copy)]
pub enum Command<'a> {
    NewObject {
        object: u32,
    },
    DropObject {
        object: u32,
    },
    Write {
        object: u32,
        offset: usize,
        data: &'a [u8],
    },
    Read {
        object: u32,
        offset: usize,
        length: u8,
    },
    Add {
        object: u32,
        page: PageNumber,
    },
    LookUp {
        object: u32,
        page: PageNumber,
    },
    Copy(Passage),
    Shadow(Passage),
    Zero {
        object: u32,
        offset: usize,
        length: usize,
    },
    Counts,
}

// What is left of a line's fields.
#[derive(Drop)]
struct Fields<'a> {
    rest: &'a [u8],
}

impl<'a> Fields<'a> {
    // "(.. one-byte length)"
    fn byte(&mut self) -> Option<u8>
        ensures { Reads (byte_in self.old.rest.now) result self.new.rest.now }
    {
        let (byte, rest) = self.rest.split_first()?;
        self.rest = rest;
        Some(*byte)
    }

    // "Names take one byte"
    fn name(&mut self) -> Option<u32>
        ensures { Reads (byte_in self.old.rest.now) result self.new.rest.now }
    {
        Some(u32::from(self.byte()?))
    }

    // "offsets, pages and lengths four", "high byte first"
    fn number(&mut self) -> Option<usize>
        ensures { Reads (number_in self.old.rest.now) result self.new.rest.now }
    {
        let (number, rest) = self.rest.split_first_chunk::<4>()?;
        self.rest = rest;
        Some(u32::from_be_bytes(*number) as usize)
    }

    // "(source, offset, destination, offset, length)"
    fn passage(&mut self) -> Option<Passage>
        ensures { Reads (passage_in self.old.rest.now) result self.new.rest.now }
    {
        Some(Passage {
            source: self.name()?,
            from: self.number()?,
            object: self.name()?,
            to: self.number()?,
            n: self.number()?,
        })
    }

    // Data is what is left.
    fn data(&mut self) -> &'a [u8]
        ensures value { result.now ≡ self.old.rest.now }
        ensures after { self.new.rest.now ≡ [] }
    {
        let data = self.rest;
        self.rest = &[];
        data
    }

    // The call with this code, and its fields. By hand: the code is a byte of the line, and nowhere else is it looked at.
    fn command(&mut self, code: u8) -> Option<Command<'a>>
        ensures { Reads (call_in code self.old.rest.now) (option_map call_for result) self.new.rest.now }
    {
        match code {
            1 => Some(Command::NewObject {
                object: self.name()?,
            }),
            2 => Some(Command::DropObject {
                object: self.name()?,
            }),
            3 => Some(Command::Write {
                object: self.name()?,
                offset: self.number()?,
                data: self.data(),
            }),
            4 => Some(Command::Read {
                object: self.name()?,
                offset: self.number()?,
                length: self.byte()?,
            }),
            5 => Some(Command::Add {
                object: self.name()?,
                page: PageNumber(self.number()?),
            }),
            6 => Some(Command::LookUp {
                object: self.name()?,
                page: PageNumber(self.number()?),
            }),
            7 => Some(Command::Copy(self.passage()?)),
            8 => Some(Command::Shadow(self.passage()?)),
            9 => Some(Command::Zero {
                object: self.name()?,
                offset: self.number()?,
                length: self.number()?,
            }),
            10 => Some(Command::Counts),
            _ => None,
        }
    }
}

impl<'a> Command<'a> {
    // The call that a line's bytes ask for; none for "An empty line", "an unknown code, a field too short or too long".
    pub fn parse(bytes: &'a [u8]) -> Option<Command<'a>>
        ensures { option_map call_for result ≡ call_of bytes.now }
    {
        let (code, rest) = bytes.split_first()?;
        let mut fields = Fields { rest };
        let command = fields.command(*code)?;
        fields.rest.is_empty().then_some(command)
    }
}
