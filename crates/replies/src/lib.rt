// THE CALLS OF THE LINE PROGRAM: what a line's bytes ask for, and the bytes of its answer. Any store and any pool.
#![tactic(auto)]

mod command;
mod spoken;

ghost use Rattle.std.specs.Prelude.{◌≡◌, [], ◌∷◌};
ghost use Rattle.book.specs.Need.{state_byte};
ghost use Rattle.look.specs.Found.{state_is};
ghost use Rattle.book.specs.Book.{read, add, look_up, counts};
ghost use Rattle.replies.specs.Line.{two_of, malformed};
ghost use Rattle.replies.specs.Command.{call_for};
ghost use Rattle.refusals.specs.Number.{number_of};
ghost use Rattle.calls.specs.Calls.{left};
ghost use Rattle.replies.specs.Replies.{SpokeAlone, Spoke, bytes_of, told};

pub use command::Command;
use look::State;
use page::PageNumber;
use refusals::Refusal;
pub use spoken::Spoken;
use store::Store;

// "(two bytes)", high byte first
fn two(n: usize) -> [u8; 2]
    ensures { result ≡ two_of n [] }
{
    let [.., high, low] = n.to_be_bytes();
    [high, low]
}

// "`00` absent, `01` private, `02` shared". By hand: `t as u8` would make the order in which `State` names its
// kinds a part of the line program.
fn state_byte(t: State) -> u8
    ensures { result ≡ state_byte (state_is t) }
{
    match t {
        State::Absent => 0,
        State::Private => 1,
        State::Shared => 2,
    }
}

// A call that has no more to tell than that it is done.
fn done(s: &mut Store, r: Result<Store, Refusal>) -> Result<Spoken, Refusal>
    ensures told { told result ≡ number_of r ∷ [] }
    ensures store { s.new ≡ left s.old r }
{
    *s = r?;
    Ok(Spoken::new(&[0]))
}

// "then read data"
fn read(s: &Store, pool: &[u8], object: u32, offset: usize, length: u8) -> Result<Spoken, Refusal>
    ensures { Spoke (read object offset length) s.now pool.now (told result) s.now pool.now }
{
    let n = usize::from(length);
    let mut bytes = [0; 256];
    access::read(*s, pool, object, offset, &mut bytes[1..=n])?;
    Ok(Spoken::new(&bytes[..=n]))
}

// "the added frame (two bytes)"
fn add(s: &mut Store, pool: &mut [u8], object: u32, page: PageNumber) -> Result<Spoken, Refusal>
    ensures { Spoke (add object page.0) s.old pool.old (told result) s.new pool.new }
{
    let added = access::add(*s, pool, object, page)?;
    *s = added.store;
    let [high, low] = two(added.frame);
    Ok(Spoken::new(&[0, high, low]))
}

// "`00` absent, `01` private, `02` shared"
fn look_up(s: &Store, object: u32, page: PageNumber) -> Result<Spoken, Refusal>
    ensures { SpokeAlone (look_up object page.0) s.now (told result) s.now }
{
    let state = calls::look_up(*s, object, page)?;
    Ok(Spoken::new(&[0, state_byte(state)]))
}

// "frames in use and ranges (two bytes each)"
fn counts(s: &Store) -> Result<Spoken, Refusal>
    ensures { SpokeAlone counts s.now (told result) s.now }
{
    let numbers = calls::counts(*s)?;
    let [frames_high, frames_low] = two(numbers.frames);
    let [ranges_high, ranges_low] = two(numbers.ranges);
    Ok(Spoken::new(&[0, frames_high, frames_low, ranges_high, ranges_low]))
}

// The call made, and the bytes of its answer where it is done. By hand: the match of an enum, each of whose kinds has fields and a call of its own.
fn call(s: &mut Store, pool: &mut [u8], command: Command) -> Result<Spoken, Refusal>
    ensures { Spoke (call_for command.entry) s.old pool.old (told result) s.new pool.new }
{
    match command {
        Command::NewObject { object } => done(s, calls::new_object(*s, object)),
        Command::DropObject { object } => done(s, calls::drop_object(*s, object)),
        Command::Write {
            object,
            offset,
            data,
        } => done(s, access::write(*s, pool, object, offset, data)),
        Command::Read {
            object,
            offset,
            length,
        } => read(s, pool, object, offset, length),
        Command::Add { object, page } => add(s, pool, object, page),
        Command::LookUp { object, page } => look_up(s, object, page),
        Command::Copy(p) => {
            let r = copies::copy_ranges(*s, pool, p.source, p.from, p.object, p.to, p.n);
            done(s, r)
        }
        Command::Shadow(p) => {
            let r = copies::copy_range_to_shadow(*s, pool, p.source, p.from, p.object, p.to, p.n);
            done(s, r)
        }
        Command::Zero {
            object,
            offset,
            length,
        } => done(s, copies::zero_ranges(*s, pool, object, offset, length)),
        Command::Counts => counts(s),
    }
}

// THE CALL MADE, and the bytes of its answer. "A refusal prints its byte alone."
pub fn answer(s: &mut Store, pool: &mut [u8], command: Command) -> Spoken
    ensures { Spoke (call_for command.entry) s.old pool.old (bytes_of result) s.new pool.new }
{
    call(s, pool, command).unwrap_or_else(|refusal| Spoken::new(&[u8::from(refusal)]))
}

// A line that asks for no call: it "prints `FF`".
pub fn malformed() -> Spoken
    ensures { bytes_of result ≡ malformed }
{
    Spoken::new(&[255])
}
