ghost use Rattle.std.specs.Prelude.{IfOk};
ghost use Rattle.ch_config.specs.Config.{IsConfig};

use ch_api::plan;
use ch_base::{Bytes, Memory, Text};
use ch_config::Config;
use ch_requests::{Planned, Request, Route};
use ch_sig::Params;
use std::alloc::Global;
use std::test::Fail;

const KEY: &str = "278d425bdf160c739803";

const DIGEST: &str = "ec365a775a4cd0599faeb73354201b6f";

const SIGNATURE: &str = "da454824c97ba181a32ccc17a72625ba02771f50b50e1e7430e47a1f3f457e6c";

const ANOTHER_KEY: &str = "278d425bdf160c739804";

const OF_ANOTHER_KEY: &str = "6a8edda3fc1977591b60a7547f3f1a62d70ac0f3e747401181f2392cd1fa59d8";

const OF_ANOTHER_VERSION: &str = "1eb5e880cb252cbcac89b9d95fb3de10f1fa1036741842f3d5df2862b0a2f0cd";

const ANOTHER_DIGEST: &str = "99914b932bd37a50b983c5e7c90ae93b";

const OF_ANOTHER_DIGEST: &str = "dad795af96c061dd8164ad284441e775bdaa3f135f1dbec4277e4aac26624795";

const UPPER_CASE: &str = "DA454824C97BA181A32CCC17A72625BA02771F50B50E1E7430E47A1F3F457E6C";

const SHORTER: &str = "da454824c97ba181a32ccc17a72625ba02771f50b50e1e7430e47a1f3f457e6";

/// The moment of the request, in milliseconds.
const NOW: u64 = 1_353_088_179_000;

/// The app of the worked example of "Generating authentication signatures" (Pusher Channels documentation, HTTP API).
fn example_app(alloc: Global) -> Result<Config, Memory>
    ensures { IfOk result IsConfig }
{
    let mut config = Config::built_in(alloc)?;
    config.app_id = Text::of(alloc, "3")?;
    config.key = Text::of(alloc, KEY)?;
    config.secret = Text::of(alloc, "7ad3773142a6692b25b8")?;
    Ok(config)
}

/// The request of that example, with this key, version, digest and signature.
fn example_request(alloc: Global, given: [&str; 4]) -> Result<Request, Memory> {
    let [key, version, digest, signature] = given;
    let mut params = Params::new(alloc);
    add(alloc, &mut params, "auth_key", key)?;
    add(alloc, &mut params, "auth_timestamp", "1353088179")?;
    add(alloc, &mut params, "auth_version", version)?;
    add(alloc, &mut params, "body_md5", digest)?;
    add(alloc, &mut params, "auth_signature", signature)?;
    let body =
        b"{\"name\":\"foo\",\"channels\":[\"project-3\"],\"data\":\"{\\\"some\\\":\\\"data\\\"}\"}";
    Ok(Request {
        route: Route::Events,
        path: Text::of(alloc, "/apps/3/events")?,
        params,
        doubled: false,
        body: Bytes::from_vec(body.to_vec(alloc)?),
    })
}

/// Adds a member of a query.
fn add(alloc: Global, params: &mut Params, name: &str, value: &str) -> Result<(), Memory> {
    let name = Text::of(alloc, name)?;
    let value = Text::of(alloc, value)?;
    let _ = params.insert(name, value)?;
    Ok(())
}

/// The status of a refusal; 200 where calls are to be made.
fn status_of(planned: &Planned) -> u16 {
    match planned {
        Planned::Answer(reply) => reply.status,
        Planned::Ask(_) => 200,
    }
}

#[test]
fn only_the_documented_signature_is_authorized(rt: HostRuntime) -> Result<(), Fail> {
    let alloc: Global = rt.alloc();
    let config = example_app(alloc)?;
    // The faults of key, version and digest are signed as they stand.
    let rows = [
        ([KEY, "1.0", DIGEST, SIGNATURE], false, 200),
        ([KEY, "1.0", DIGEST, SIGNATURE], true, 401),
        ([ANOTHER_KEY, "1.0", DIGEST, OF_ANOTHER_KEY], false, 401),
        ([KEY, "1.1", DIGEST, OF_ANOTHER_VERSION], false, 401),
        ([KEY, "1.0", ANOTHER_DIGEST, OF_ANOTHER_DIGEST], false, 401),
        ([KEY, "1.0", DIGEST, UPPER_CASE], false, 401),
        ([KEY, "1.0", DIGEST, SHORTER], false, 401),
    ];
    for (given, doubled, status) in rows {
        let mut request = example_request(alloc, given)?;
        request.doubled = doubled;
        let planned = plan(alloc, &config, 1, &request, NOW)?;
        assert_eq!(rt; status_of(&planned), status, "at {}", given[3]);
    }
    Ok(())
}
