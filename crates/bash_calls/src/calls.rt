ghost use Rattle.std.specs.Prelude.{◌≡◌, ◌≤◌, ◌<◌, [], ◌∷◌, ◌++◌, drop, length, IfNone, IfOk, IfSome, OnErr, OnOk};
ghost use Rattle.eb_syntax.specs.declared.tree.Redir.{out-Redir};
ghost use Rattle.shell_state.specs.Opening.{is_too_deep};
ghost use Rattle.bash_calls.specs.Calls.{brought_back, capturing, closed, entered, input_back, input_of, kind_of, layer_of, outputs_back, outputs_of, Enters, IsRefused, Redirects};
ghost use Rattle.bash_calls.specs.Nesting.{has_none, keeping_input, kinds};
ghost use Rattle.bash_calls.specs.Redirections.{made, reading, takes_input};
ghost use Rattle.bash_calls.specs.Changes.{ended};

use crate::args::Args;
use crate::change::{Change, change_of};
use crate::layer::{Input, Layer, Open, Outputs};
use crate::nesting::Nesting;
use eb_bytes::{Bytes, Memory};
use eb_syntax::Redir;
use shell_state::{Fault, Io, Stop, Target};
use std::alloc::Global;
use std::mem;

/// What is open while a script runs.
pub struct Calls {
    /// What commands read from and print to.
    pub io: Io,
    /// What is open, and the arguments and the loops inside it.
    pub nesting: Nesting,
}

impl Calls {
    /// Nothing is open: no arguments, no loop, no input, and outputs that go nowhere. Takes no memory.
    pub fn new(alloc: Global) -> Calls
        ensures io { result.io ≡ record { input = []; place = 0; out = Target.Drop; err = Target.Drop; captures = [] } }
        ensures nesting { result.nesting ≡ record { args = []; loops = 0; opened = [] } }
    {
        Calls {
            io: Io::new(alloc),
            nesting: Nesting::new(alloc),
        }
    }

    /// Opens one more inside all that is open. A call has arguments of its own; in a call and in a script of the host no
    /// loop round it can be left.
    ///
    /// # Errors
    /// `DepthLimit` where 200 are open already, redirections not counted, unless it is redirections; `Memory` where there
    /// is no room. Nothing changed then.
    pub fn enter(&mut self, alloc: Global, what: Open) -> Result<(), Stop>
        ensures { Enters result (is_too_deep (kind_of what) (kinds self.old.nesting)) (entered what self.old) self.old self.new }
    {
        if self.nesting.is_too_deep(what.kind()) {
            return Err(Stop::Fault(Fault::DepthLimit));
        }
        let layer = self.kept_layer(alloc, &what)?;
        self.nesting.push(layer)?;
        match what {
            Open::Call(args) => {
                self.nesting.set_args(args);
                self.nesting.set_loops(0);
            }
            Open::Source => self.nesting.set_loops(0),
            _ => {}
        }
        Ok(())
    }

    // What the end of this brings back, if it begins now.
    fn kept_layer(&self, alloc: Global, what: &Open) -> Result<Layer, Memory>
        ensures { IfOk result (λ layer. layer ≡ layer_of what.now self.now) }
    {
        let loops = self.nesting.loops();
        let mut layer = Layer {
            kind: what.kind(),
            outputs: None,
            input: None,
            loops: None,
            args: None,
        };
        match what {
            Open::Call(_) => {
                layer.loops = Some(loops);
                layer.args = Some(self.nesting.copied_args(alloc)?);
            }
            Open::Source => layer.loops = Some(loops),
            Open::Sub => {
                layer.outputs = Some(self.present_outputs());
                layer.input = Some(self.present_input(alloc)?);
                layer.loops = Some(loops);
                layer.args = Some(self.nesting.copied_args(alloc)?);
            }
            Open::Eval | Open::Compound | Open::Redirs => {}
        }
        Ok(layer)
    }

    // Where outputs go.
    fn present_outputs(&self) -> Outputs
        ensures { result ≡ outputs_of self.now.io }
    {
        Outputs {
            out: self.io.out,
            err: self.io.err,
        }
    }

    // An input equal to the present one.
    fn present_input(&self, alloc: Global) -> Result<Input, Memory>
        ensures { IfOk result (λ input. input ≡ input_of self.now.io) }
    {
        Ok(Input {
            text: self.io.input.copy(alloc)?,
            place: self.io.place,
        })
    }

    /// Closes the innermost one that is open; there must be one. The redirections made since it was opened end: outputs,
    /// and the input where it changed, are what they were. The end of a call brings the arguments and the loops back, that
    /// of a script the loops, and that of a subshell all but what was captured. Takes no memory.
    pub fn close(&mut self)
        requires { 0 < length self.old.nesting.opened }
        ensures { self.new ≡ closed self.old }
    {
        if let Some(layer) = self.nesting.pop() {
            self.bring_back(layer);
        }
    }

    // Brings back what was kept.
    fn bring_back(&mut self, layer: Layer)
        ensures { self.new ≡ brought_back layer self.old.nesting.opened self.old }
    {
        let Layer {
            kind: _,
            outputs,
            input,
            loops,
            args,
        } = layer;
        self.bring_outputs_back(outputs);
        self.bring_input_back(input);
        match loops {
            Some(loops) => self.nesting.set_loops(loops),
            None => {}
        }
        match args {
            Some(args) => self.nesting.set_args(args),
            None => {}
        }
    }

    fn bring_outputs_back(&mut self, outputs: Option<Outputs>)
        ensures { self.new ≡ record self.old { io = outputs_back outputs self.old.io } }
    {
        match outputs {
            Some(outputs) => {
                self.io.out = outputs.out;
                self.io.err = outputs.err;
            }
            None => {}
        }
    }

    fn bring_input_back(&mut self, input: Option<Input>)
        ensures { self.new ≡ record self.old { io = input_back input self.old.io } }
    {
        match input {
            Some(input) => {
                let Input { text, place } = input;
                self.io.input = text;
                self.io.place = place;
            }
            None => {}
        }
    }

    /// The positional parameters, from the first.
    pub fn args(&self) -> &[Bytes]
        ensures { result.now ≡ self.now.nesting.args }
    {
        self.nesting.args()
    }

    /// Other positional parameters. Takes no memory.
    pub fn set_args(&mut self, args: Args)
        ensures { self.new ≡ record self.old { nesting = record self.old.nesting { args = args } } }
    {
        self.nesting.set_args(args);
    }

    /// Drops so many positional parameters from the first on; there must be so many. Takes no memory.
    pub fn shift(&mut self, count: usize)
        requires { count ≤ length self.old.nesting.args }
        ensures { self.new ≡ record self.old { nesting = record self.old.nesting { args = drop count self.old.nesting.args } } }
    {
        self.nesting.shift(count);
    }

    /// The loops that `break` and `continue` can leave.
    pub fn loops(&self) -> usize
        ensures { result ≡ self.now.nesting.loops }
    {
        self.nesting.loops()
    }

    /// Lets so many loops be left.
    pub fn set_loops(&mut self, loops: usize)
        ensures { self.new ≡ record self.old { nesting = record self.old.nesting { loops = loops } } }
    {
        self.nesting.set_loops(loops);
    }

    /// Whether nothing is open: neither a call nor redirections, nor anything else.
    pub fn is_plain(&self) -> bool
        ensures { result ≡ has_none self.now.nesting.opened }
    {
        self.nesting.is_empty()
    }

    /// Lets standard output go to a capture of its own, which is the innermost one.
    ///
    /// # Errors
    /// `Memory` where there is no room for it; nothing changed then.
    pub fn begin_capture(&mut self) -> Result<(), Memory>
        ensures ok { OnOk result (self.new ≡ record self.old { io = capturing self.old.io }) }
        ensures err { OnErr result (self.new ≡ self.old) }
    {
        let at = self.io.captures.len();
        self.io.captures.begin()?;
        self.io.out = Target::Capture(at);
        Ok(())
    }

    /// Ends the innermost capture, and gives what went there; `None` where there is none. Takes no memory.
    pub fn finish_capture(&mut self) -> Option<Bytes>
        ensures some { IfSome result (λ text. self.old.io.captures ≡ self.new.io.captures ++ text ∷ []) }
        ensures none { IfNone result (self.old.io.captures ≡ []) }
        ensures same { self.new ≡ record self.old { io = record self.old.io { captures = self.new.io.captures } } }
    {
        self.io.captures.finish()
    }

    /// Makes a redirection, whose target is expanded (Bash Reference Manual, "Redirections"): the target of a here-document
    /// is its body. `/dev/null` is the only file; outputs can be copied among 1 and 2; a here-string gets a newline.
    ///
    /// # Errors
    /// `RedirectRefused` with the target for every other file and descriptor; `Memory` where there is no room. Nothing
    /// changed then.
    pub fn redirect(&mut self, alloc: Global, redir: &Redir, target: &[u8]) -> Result<(), Stop>
        ensures { Redirects result (takes_input (out-Redir redir.now)) (made (out-Redir redir.now) target.now self.old.io) target.now self.old self.new }
    {
        let Some(change) = change_of(redir, target, &self.io) else {
            return Err(refused(alloc, target));
        };
        let outputs = self.present_outputs();
        match change {
            Change::Input(text, newline) => {
                let input = whole_input(alloc, text, newline)?;
                self.nesting.keep_outputs(outputs);
                self.read(input);
            }
            Change::Out(output) => {
                self.nesting.keep_outputs(outputs);
                self.io.out = output;
            }
            Change::Err(output) => {
                self.nesting.keep_outputs(outputs);
                self.io.err = output;
            }
            Change::Neither => {
                self.nesting.keep_outputs(outputs);
                self.io.out = Target::Drop;
                self.io.err = Target::Drop;
            }
        }
        Ok(())
    }

    // Lets the input be this text. What it was is kept for the end of the innermost one that is open.
    fn read(&mut self, text: Bytes)
        ensures io { self.new.io ≡ reading text self.old.io }
        ensures nesting { self.new.nesting ≡ record self.old.nesting { opened = keeping_input (input_of self.old.io) self.old.nesting.opened } }
    {
        let before = Input {
            text: mem::replace(&mut self.io.input, text),
            place: self.io.place,
        };
        self.io.place = 0;
        self.nesting.keep_input(before);
    }
}

// A crate above that lets the calls go calls this, and proves nothing of what they hold.
impl Drop for Calls {
    fn drop(self) {
        let Calls { io, nesting } = self;
        drop(io);
        drop(nesting);
    }
}

// A redirection to this target is refused.
fn refused(alloc: Global, target: &[u8]) -> Stop
    ensures { IsRefused result target.now }
{
    match Bytes::from_slice(alloc, target) {
        Ok(target) => Stop::Fault(Fault::RedirectRefused(target)),
        Err(Memory) => Stop::Memory,
    }
}

// A text, with a newline after it where one is wanted.
fn whole_input(alloc: Global, text: &[u8], newline: bool) -> Result<Bytes, Memory>
    ensures { IfOk result (λ input. input ≡ ended newline text.now) }
{
    let mut input = Bytes::from_slice(alloc, text)?;
    if newline {
        input.extend(b"\n")?;
    }
    Ok(input)
}
