ghost use Rattle.ch_http.specs.Laws.{VerdictStays, OneVerdict, HeadWithin};

/// A verdict that isn't `Need` stays as it is, whatever bytes follow.
pub fn verdict_stays()
    ensures { VerdictStays }
{}

/// There is at most one verdict on the same bytes.
pub fn one_verdict()
    ensures { OneVerdict }
{}

/// The head of an `Upgrade` lies in the bytes that came, so that `rest` may be asked for those behind it.
pub fn head_within()
    ensures { HeadWithin }
{}
