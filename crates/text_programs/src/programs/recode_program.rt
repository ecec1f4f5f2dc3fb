//! One run of `recode`, over any reader and writers.
ghost use Rattle.std.specs.Prelude.{◌≡◌, ◌≢◌, ◌<◌, ◌⊎◌, [], map, string_bytes, Some, IfSome, IfNone, IfErr, OnOk, OnErr};
ghost use Rattle.text_programs.specs.Endings.{CountsAll, CountsUntil, FailsOrIsQuiet, reason_of};
ghost use Rattle.text_runs.specs.Failures.{Known, Pipes, NoReadAfterEnd};
ghost use Rattle.text_programs.specs.Arguments.{form_name, AsksForms};
ghost use Rattle.text_programs.specs.RecodeStream.{WritesRecoded, BeginsRecoded};

use crate::programs::recode_stream::{RecodeFault, recode};
use crate::programs::stops::Stop;
use recoding::form::Form;
use std::alloc::Allocator;
use std::io::{Read, Write};
use text_runs::counted::Counted;

/// Runs `recode` on the arguments after the program's name.
///
/// The arguments are the names of two encodings, `utf8`, `utf16le` or `utf16be`, which may be the same: that
/// of the input and that of the output. All other arguments are invalid: then nothing is read or written.
///
/// Cost: O(n), allocates an amount that does not grow with the input.
pub fn run_recode<A: Allocator + Copy, R: Read, W: Write>(
    alloc: A,
    args: &[String<A>],
    input: &mut Counted<R>,
    out: &mut Counted<W>,
) -> Result<(), Stop>
    ensures recoded { (from to : Form) → AsksForms (map string_bytes args.now) from to → OnOk result
        (Known W.contents (WritesRecoded from to (R.remaining input.old.inner)) out.old out.new) }
    ensures front { (from to : Form) → AsksForms (map string_bytes args.now) from to →
        Pipes R.remaining W.contents (BeginsRecoded from to) input.old input.new out.old out.new }
    ensures reads { OnOk result (CountsAll R.remaining input.old input.new) }
    ensures until { IfErr result (CountsUntil R.remaining input.old input.new) }
    ensures in_time { NoReadAfterEnd input.old.reads input.new.reads }
    ensures quiet { OnOk result (out.new.failures ≡ out.old.failures) }
    ensures early { IfErr result (FailsOrIsQuiet out.old out.new) }
    ensures nothing { (from to : Form) → AsksForms (map string_bytes args.now) from to →
        R.remaining input.old.inner ≡ Some [] →
        OnErr result ((input.old.failures < input.new.failures) ⊎ (out.old.failures < out.new.failures)) }
    ensures other_calls { out.new.other_calls ≡ out.old.other_calls }
    ensures wrong { ((from to : Form) → ¬ AsksForms (map string_bytes args.now) from to) →
        (result ≡ Err Stop.WrongArguments) × (input.new ≡ input.old) × (out.new ≡ out.old) }
    ensures right { (from to : Form) → AsksForms (map string_bytes args.now) from to →
        result ≢ Err Stop.WrongArguments }
{
    let Some((from, to)) = forms_of(args) else {
        return Err(Stop::WrongArguments);
    };
    match recode(alloc, input, out, from, to) {
        Ok(()) => Ok(()),
        Err(fault) => Err(stop_of(fault)),
    }
}

// The two encodings that the arguments name, if they do.
fn forms_of<A: Allocator>(args: &[String<A>]) -> Option<(Form, Form)>
    ensures some { IfSome result (λ forms. AsksForms (map string_bytes args.now) forms.0 forms.1) }
    ensures none { IfNone result ((from to : Form) → ¬ AsksForms (map string_bytes args.now) from to) }
{
    match args {
        [from, to] => Some((form_of(from.as_str())?, form_of(to.as_str())?)),
        _ => None,
    }
}

// The encoding of that name, if it is one.
fn form_of(name: &str) -> Option<Form>
    ensures some { IfSome result (λ form. name.now ≡ form_name form) }
    ensures none { IfNone result ((form : Form) → name.now ≢ form_name form) }
{
    match name {
        "utf8" => Some(Form::Utf8),
        "utf16le" => Some(Form::Utf16Le),
        "utf16be" => Some(Form::Utf16Be),
        _ => None,
    }
}

// The reason why a program ends at that fault.
fn stop_of(fault: RecodeFault) -> Stop
    ensures { result ≡ reason_of fault }
{
    match fault {
        RecodeFault::Read => Stop::CannotRead,
        RecodeFault::Write => Stop::CannotWrite,
        RecodeFault::Memory => Stop::NoMemory,
    }
}
