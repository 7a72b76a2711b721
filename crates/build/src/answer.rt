// The calls and their answers.
ghost use Rattle.std.specs.Prelude.{◌≡◌, ◌≤◌, length};
ghost use Rattle.rules.specs.Limits.{max_places};

use crate::words::{LineError, numbers, operation};
use builder::begin::begin_on;
use builder::finish::finish_on;
use builder::operation::operation_on;
use cutborder::Memory;
use places::settle;
use rules::refusal::Refusal;
use rules::{Builder, CORNERS, Counts, Operation, Triangle};
use std::io::Stdout;
use text::program::Program;
use text::show::print_refusal;
use text::streams::Output;
use text::words::Words;

// How much of the buffers a builder is lent.
#[derive(Drop)]
struct Lent {
    entries: usize,
    records: usize,
    ghost entries_fit: { entries ≤ 24576 },
    ghost records_fit: { records ≤ max_places },
}

impl Lent {
    // An operation on the front of the buffers.
    fn operate(
        &self,
        state: &mut Builder,
        op: Operation,
        triangles: &mut [u16],
        memory: &mut Memory,
    ) -> Result<Option<Triangle>, Refusal>
        requires { self.now.entries ≤ length triangles.old }
    {
        settle(memory);
        let entries = self.entries;
        operation_on(state, op, &mut triangles[..entries], memory, self.records)
    }
}

// A run of calls: a builder, the buffers of which it is lent the front, and where the answers go.
#[derive(Drop)]
pub(crate) struct Session<'a> {
    pub program: Program<'a>,
    pub out: Output<Stdout>,
    state: Builder,
    triangles: [u16; CORNERS],
    memory: Memory,
    lent: Lent,
}

impl<'a> Session<'a> {
    // No model was begun yet.
    pub fn new(program: Program<'a>) -> Session<'a>
        ensures { (result.lent.entries ≡ 0) × (result.lent.records ≡ 0) }
    {
        Session {
            program,
            out: Output::to(program.rt.stdout()),
            state: Builder::empty(),
            triangles: [0; CORNERS],
            memory: places::empty(),
            lent: Lent {
                entries: 0,
                records: 0,
            },
        }
    }

    // Answers a line. A remark is its own answer; of a line that is no call the answer is `error`
    // and why, which is said too.
    pub fn answer_line(&mut self, line: &[u8]) {
        if line.first() == Some(&b'#') {
            self.out.bytes(line);
            self.out.bytes(b"\n");
        } else if let Err(why) = self.call(line) {
            self.program.say(why);
            writeln!(self.out, "error {why}");
        }
    }

    // Makes the call that a line names.
    fn call(&mut self, line: &[u8]) -> Result<(), LineError> {
        let mut words = Words(line);
        match words.next() {
            Some(b"begin") => self.begin(numbers(words, LineError::NoCall)?),
            Some(b"op") => self.operate(operation(words)?),
            Some(b"finish") => {
                let [] = numbers::<0>(words, LineError::NoCall)?;
                self.finish();
            }
            _ => return Err(LineError::NoCall),
        }
        Ok(())
    }

    // A beginning. Refused, it leaves the model as it was.
    fn begin(&mut self, numbers: [u16; 6]) {
        let [vertices, triangles, places, loops, entries, records] = numbers;
        let stated = Counts {
            vertices,
            triangles,
            places,
            loops,
        };
        let entries = usize::from(entries).min(CORNERS);
        let records = usize::from(records).min(Builder::MAX_PLACES);
        match begin_on(stated, &self.triangles[..entries], records) {
            Ok(state) => {
                self.state = state;
                self.memory = places::empty();
                self.lent = Lent { entries, records };
                self.out.bytes(b"ok\n");
            }
            Err(refusal) => print_refusal(&mut self.out, refusal.number()),
        }
    }

    // An operation.
    fn operate(&mut self, op: Operation) {
        let Session {
            state,
            triangles,
            memory,
            lent,
            ..
        } = self;
        match lent.operate(state, op, triangles, memory) {
            Ok(Some(t)) => writeln!(self.out, "ok {} {} {}", t.p, t.q, t.r),
            Ok(None) => self.out.bytes(b"ok\n"),
            Err(refusal) => print_refusal(&mut self.out, refusal.number()),
        }
    }

    // A finish. The builder is lent as much afterwards.
    fn finish(&mut self)
        ensures { (self.new.lent.entries ≡ self.old.lent.entries) × (self.new.lent.records ≡ self.old.lent.records) }
    {
        settle(&mut self.memory);
        let entries = self.lent.entries;
        let finished = finish_on(
            self.state,
            &self.triangles[..entries],
            &mut self.memory,
            self.lent.records,
        );
        match finished {
            Ok(t) => {
                writeln!(
                    self.out,
                    "ok {} {} {} {}",
                    t.edges, t.rims, t.unions, t.euler
                );
            }
            Err(refusal) => print_refusal(&mut self.out, refusal.number()),
        }
    }
}
