//! What the program answers: a status, and the text that it writes.

ghost use Rattle.std.specs.Prelude.{◌≡◌, ◌≤◌, ◌++◌, IfOk, MatchResult, codes, decimal};
ghost use Rattle.osi_commands.specs.Answers.{usage_answer, unread_answer, module_answer, script_answer, done_answer, EndedWith};
ghost use Rattle.osi_base.specs.declared.layer_words.Status.TheVariants.{NoMemory as no_room};

use module_check::refused_text;
use module_reading::ModuleKind;
use osi_base::{Name, NoMemory, Octets, Sink, SinkFault, Status, write_all};
use script_lines::ScriptKind;
use std::alloc::Global;
use value_text::Text;

/// What the program answers: its status, and the text that it writes.
#[derive(Debug, Drop)]
pub struct Answer {
    /// The status with which the program ends.
    pub status: Status,
    /// The text that the program writes.
    pub text: Octets,
}

/// The words are no command.
pub fn usage(alloc: Global) -> Result<Answer, NoMemory>
    ensures { IfOk result (λ answer. answer ≡ usage_answer) }
{
    let mut text = Text::new(alloc);
    text.put(
        "usage: osi_tool check MODULE [--table] | replay MODULE SCHEDULE [--brief] | replay --made N | call MODULE SCRIPT | serve MODULE BOOK CONNECTIONS | trace MODULE FILE",
    )?;
    text.end_line()?;
    Ok(Answer {
        status: Status::Usage,
        text: text.into_octets(),
    })
}

/// The file of this name isn't read.
pub fn cannot_read(alloc: Global, name: &Name) -> Result<Answer, NoMemory>
    ensures { IfOk result (λ answer. answer ≡ unread_answer name.now) }
{
    let mut text = Text::new(alloc);
    text.put("cannot read ")?;
    text.put_raw(name.as_bytes())?;
    text.end_line()?;
    Ok(Answer {
        status: Status::ReadFault,
        text: text.into_octets(),
    })
}

/// The module has a fault at this line and column.
pub fn module_refused(
    alloc: Global,
    line: u32,
    column: u64,
    kind: ModuleKind,
) -> Result<Answer, NoMemory>
    ensures { IfOk result (λ answer. answer ≡ module_answer line column kind) }
{
    let text = refused_text(alloc, line, column, kind)?;
    Ok(Answer {
        status: Status::ModuleRefused,
        text,
    })
}

/// A schedule or a recording breaks its grammar at this line.
pub fn script_refused(alloc: Global, line: u32, kind: ScriptKind) -> Result<Answer, NoMemory>
    ensures { IfOk result (λ answer. answer ≡ script_answer line kind) }
{
    let mut text = Text::new(alloc);
    text.put("script refused ")?;
    text.put_number(u64::from(line))?;
    text.put(" ")?;
    text.put(kind.word())?;
    text.end_line()?;
    Ok(Answer {
        status: Status::ScriptRefused,
        text: text.into_octets(),
    })
}

/// The work is whole, and has this text.
pub fn done(text: Octets) -> Answer
    ensures { result ≡ done_answer text }
{
    Answer {
        status: Status::Done,
        text,
    }
}

/// Writes the text of an answer, where memory sufficed to make one.
pub fn conclude<O: Sink>(out: &mut O, answer: Result<Answer, NoMemory>) -> Status
    ensures count { O.faults out.old ≤ O.faults out.new }
    ensures ends { MatchResult answer (λ made. EndedWith (O.faults out.old) (O.faults out.new)
        (O.told out.old) (O.told out.new) made result)
        (λ _. (result ≡ no_room) × (O.faults out.new ≡ O.faults out.old) ×
        (O.told out.new ≡ O.told out.old)) }
{
    match answer {
        Ok(answer) => finish(out, answer),
        Err(NoMemory) => Status::NoMemory,
    }
}

/// Writes the answer's text, and gives its status. Where writing fails, the status is that
/// of the write.
pub fn finish<O: Sink>(out: &mut O, answer: Answer) -> Status
    ensures count { O.faults out.old ≤ O.faults out.new }
    ensures ends { EndedWith (O.faults out.old) (O.faults out.new) (O.told out.old) (O.told out.new)
        answer result }
{
    let Answer { status, text } = answer;
    match write_all(out, text.as_slice()) {
        Ok(()) => status,
        Err(SinkFault::Failed) => Status::WriteFault,
        Err(SinkFault::NoMemory) => Status::NoMemory,
    }
}
