//! What the first line of the input asks for.

/// What is done with a document.
#[derive(Clone, Copy)]
pub enum How {
    Finish,
    /// By `finish`, of requests whose styles aren't prepared.
    FinishUnprepared,
    FinishCounted,
    FinishFull,
    FinishCsl,
    /// By `finish_counted`, `finish_full` or `finish_csl`, as the document says; what is printed is
    /// the account.
    Account,
    /// By `finish`; what is printed is whether a copy of the answer is equal to it.
    Copies,
    /// By `finish`; the answer is printed as JSON.
    Data,
    /// By `finish_counted` or `finish_full`, with entries of each request's own that count how
    /// often they are asked.
    Asked,
    /// By `finish_counted` or `finish_csl`; what is printed is what callers learn of the account by
    /// the laws of answers alone.
    Callers,
    /// Each request by `standalone_citation`.
    Alone,
    /// By none: the passes are called by themselves.
    Passes,
    /// By none: what is asked is compared.
    Equality,
    /// By none: calls of a writing context are made in the first style.
    Context,
    /// By none: the entries are rendered in the first style, without a driver.
    Cites,
    /// From a table of what the layouts write.
    Table(TableWay),
}

/// What is done with the table.
#[derive(Clone, Copy)]
pub enum TableWay {
    /// The document is answered by layouts and from the table, and then each thing is taken out of
    /// the table.
    Compared,
    /// It is answered so many times by layouts.
    Finished(usize),
    /// It is answered so many times from the table.
    Driven(usize),
    /// It is answered so many times by a source that has what is in the table.
    Filled(usize),
}

/// What a line asks for.
pub fn how_of(asked: &str) -> Option<How> {
    match asked {
        "finish" => Some(How::Finish),
        "finish unprepared" => Some(How::FinishUnprepared),
        "finish_counted" => Some(How::FinishCounted),
        "finish_full" => Some(How::FinishFull),
        "finish_csl" => Some(How::FinishCsl),
        "account" => Some(How::Account),
        "copies" => Some(How::Copies),
        "data" => Some(How::Data),
        "asked" => Some(How::Asked),
        "callers" => Some(How::Callers),
        "standalone_citation" => Some(How::Alone),
        "passes" => Some(How::Passes),
        "equality" => Some(How::Equality),
        "context" => Some(How::Context),
        "cites" => Some(How::Cites),
        "table" => Some(How::Table(TableWay::Compared)),
        _ => times_of(asked),
    }
}

/// What a line asks for that ends in a number.
fn times_of(asked: &str) -> Option<How> {
    let (way, number) = asked.rsplit_once(' ')?;
    let Ok(times) = number.parse::<usize>() else {
        return None;
    };
    match way {
        "finish" => Some(How::Table(TableWay::Finished(times))),
        "drive" => Some(How::Table(TableWay::Driven(times))),
        "fill" => Some(How::Table(TableWay::Filled(times))),
        _ => None,
    }
}
