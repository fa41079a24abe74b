ghost use Rattle.std.specs.Prelude.{◌≡◌};
ghost use Rattle.ch_protocol.specs.Targets.{path_of, query_of};

/// What stands before the first question mark of a target (RFC 3986, section 3.3).
pub(crate) fn path_of(target: &str) -> &str
    ensures { result.now ≡ path_of target.now }
{
    match target.split_once('?') {
        Some((path, _)) => path,
        None => target,
    }
}

/// What stands behind the first question mark of a target (RFC 3986, section 3.4).
pub(crate) fn query_of(target: &str) -> &str
    ensures { result.now ≡ query_of target.now }
{
    match target.split_once('?') {
        Some((_, query)) => query,
        None => "",
    }
}
