// The runs of the builder, and the greatest path. The program is a host as one in another language would be: it keeps a buffer and
// the state that the last call handed back, and passes both to the next.
//
//     room N                                                         a buffer of N bytes ee
//     buffer B                                                       a buffer of these bytes
//     state MCL MCC MPL LENGTH COUNT APPENDED                        a state of these numbers
//     new MCL MCC MPL LENGTH COUNT                                   the calls, with the buffer that is kept
//     new_from_prefix MCL MCC MPL LENGTH COUNT REFERENCE K N
//     append_component C
//     build
//     new_max MCL MCC MPL
//
// For a call it prints the status, the length where the call gives one, the six numbers of the state where it gives one, and the
// whole buffer; for the first three lines it prints nothing.

use arrayvec::ArrayVec;
use builder::Builder;
use host_builder::{
    BuilderAnswer, wotskrale_builder_append_component, wotskrale_builder_build,
    wotskrale_builder_new, wotskrale_builder_new_from_prefix,
};
use host_greatest::wotskrale_path_new_max;
use replay_cases::inner::answers::Row;
use replay_cases::inner::forms::{Case, Line};
use replay_cases::inner::{answers, kept};
use std::io::Stdout;

// The buffer and the state.
#[derive(Drop)]
pub(crate) struct Building {
    buffer: ArrayVec<u8, 16384>,
    state: Builder,
}

// A state of the first numbers of a case.
fn state_of(c: &Case) -> Builder {
    Builder {
        mcl: c.n[0],
        mcc: c.n[1],
        mpl: c.n[2],
        length: c.n[3],
        count: c.n[4],
        appended: c.n[5],
    }
}

impl Building {
    // An empty buffer, and a state of zeros, listed here since `Builder` has no default.
    pub(crate) fn new() -> Self {
        Building {
            buffer: ArrayVec::new(),
            state: Builder {
                mcl: 0,
                mcc: 0,
                mpl: 0,
                length: 0,
                count: 0,
                appended: 0,
            },
        }
    }

    // The state is kept, and printed with the buffer.
    fn step(&mut self, to: &Stdout, a: BuilderAnswer) {
        self.state = a.state;
        let t = a.state;
        let x = Row([a.status, t.mcl, t.mcc, t.mpl, t.length, t.count, t.appended]);
        answers::print_with(to, x, &self.buffer);
    }

    fn start(&mut self, to: &Stdout, line: Line<'_>) -> Option<()> {
        let c = line.read(b"nnnnn")?;
        let a = wotskrale_builder_new(c.n[0], c.n[1], c.n[2], c.n[3], c.n[4], &mut self.buffer);
        self.step(to, a);
        Some(())
    }

    fn start_from_prefix(&mut self, to: &Stdout, line: Line<'_>) -> Option<()> {
        let c = line.read(b"nnnnnbnn")?;
        let a = wotskrale_builder_new_from_prefix(
            c.n[0],
            c.n[1],
            c.n[2],
            c.n[3],
            c.n[4],
            &c.b[0],
            c.n[5],
            c.n[6],
            &mut self.buffer,
        );
        self.step(to, a);
        Some(())
    }

    fn append_component(&mut self, to: &Stdout, line: Line<'_>) -> Option<()> {
        let c = line.read(b"b")?;
        let a = wotskrale_builder_append_component(self.state, &mut self.buffer, &c.b[0]);
        self.step(to, a);
        Some(())
    }

    fn build(&mut self, to: &Stdout, line: Line<'_>) -> Option<()> {
        line.read(b"")?;
        let a = wotskrale_builder_build(self.state, &self.buffer);
        self.state = a.state;
        let t = a.state;
        let x = Row([
            a.status, a.value, t.mcl, t.mcc, t.mpl, t.length, t.count, t.appended,
        ]);
        answers::print_with(to, x, &self.buffer);
        Some(())
    }

    fn new_max(&mut self, to: &Stdout, line: Line<'_>) -> Option<()> {
        let c = line.read(b"nnn")?;
        let a = wotskrale_path_new_max(c.n[0], c.n[1], c.n[2], &mut self.buffer);
        answers::print_with(to, a, &self.buffer);
        Some(())
    }

    // Carries a line out.
    pub(crate) fn replay(&mut self, to: &Stdout, line: Line<'_>) -> Option<()> {
        match line.name {
            "room" => self.buffer = kept::filled(line.read(b"n")?.n[0])?,
            "buffer" => self.buffer = kept::of_bytes(&line.read(b"b")?.b[0])?,
            "state" => self.state = state_of(&line.read(b"nnnnnn")?),
            "new" => self.start(to, line)?,
            "new_from_prefix" => self.start_from_prefix(to, line)?,
            "append_component" => self.append_component(to, line)?,
            "build" => self.build(to, line)?,
            "new_max" => self.new_max(to, line)?,
            _ => return None,
        }
        Some(())
    }
}
