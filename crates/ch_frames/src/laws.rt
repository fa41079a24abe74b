//! That each text has one meaning, so that what is read is exact.
ghost use Rattle.ch_frames.specs.Laws.{OneVerdict, OneMember, OneUser};

/// A client's text has at most one verdict: one message, or one code.
pub fn one_verdict()
    ensures { OneVerdict }
{}

/// Channel data are those of at most one member.
pub fn one_member()
    ensures { OneMember }
{}

/// User data are those of at most one user.
pub fn one_user()
    ensures { OneUser }
{}
