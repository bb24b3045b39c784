//! The text of what comes of a driven document.
ghost use Rattle.std.specs.Prelude.{◌≡◌, ◌++◌, IfOk, OnOk, map, string_bytes};
ghost use Rattle.serde_json.specs.Data.{array};
ghost use Rattle.serde_json.specs.View.{items_of};
ghost use Rattle.serde_json.specs.Written.{comma_if, compact_text};
ghost use Rattle.document_tasks.specs.TaskData.{task_data};
ghost use Rattle.document_driven.specs.Drive.{answer_text, driven_text, missing_text};

use document_tasks::printing::print_task;
use driver_assembly::rendered::Rendered;
use host_driver::drive::Driven;
use host_memo::key::TaskKey;
use std::alloc::{AllocError, Global};
use write_json::printing::print_json;

fn answer_text(alloc: Global, answer: &Rendered) -> Result<String, AllocError>
    ensures { IfOk result (λ s. string_bytes s ≡ answer_text answer.now) }
{
    let mut text = String::new(alloc);
    text.push_str("{\"answer\":")?;
    text.push_str(print_json(alloc, answer)?.as_str())?;
    text.push_str("}")?;
    Ok(text)
}

/// Appends the comma before a task, if another stands before it.
fn write_comma(out: &mut String, later: bool) -> Result<(), AllocError>
    ensures { OnOk result (string_bytes out.new ≡ string_bytes out.old ++ comma_if later) }
{
    if later { out.push(',') } else { Ok(()) }
}

fn write_task(out: &mut String, alloc: Global, task: &TaskKey) -> Result<(), AllocError>
    ensures { OnOk result
        (string_bytes out.new ≡ string_bytes out.old ++ compact_text (task_data task.now)) }
{
    let text = print_task(alloc, task)?;
    out.push_str(text.as_str())
}

fn write_tasks(out: &mut String, alloc: Global, tasks: &[TaskKey]) -> Result<(), AllocError>
    ensures { OnOk result (string_bytes out.new
        ≡ string_bytes out.old ++ compact_text (array (items_of (map task_data tasks.now)))) }
{
    out.push('[')?;
    let mut later = false;
    for task in tasks {
        write_comma(out, later)?;
        write_task(out, alloc, task)?;
        later = true;
    }
    out.push(']')
}

fn missing_text(alloc: Global, missing: &[TaskKey]) -> Result<String, AllocError>
    ensures { IfOk result (λ s. string_bytes s ≡ missing_text missing.now) }
{
    let mut text = String::new(alloc);
    text.push_str("{\"missing\":")?;
    write_tasks(&mut text, alloc, missing)?;
    text.push_str("}")?;
    Ok(text)
}

/// What comes of a document, as JSON: `{"answer": ..}`, or `{"missing": [..]}`.
pub(crate) fn driven_text<A: Drop>(alloc: Global, driven: Driven<A>) -> Result<String, AllocError>
    ensures { IfOk result (λ s. string_bytes s ≡ driven_text driven) }
{
    match driven {
        Driven::Answer(answer, _account) => answer_text(alloc, &answer),
        Driven::Missing(missing) => missing_text(alloc, missing.as_slice()),
    }
}
