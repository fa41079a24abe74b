use ch_base::{Memory, Text};
use ch_sig::{
    Inserted, Mac, Params, body_sig, matches, md5_hex, request_sig, socket_sig, user_sig,
};
use std::alloc::Global;

/// The app's secret in the examples of the Pusher Channels documentation.
const SECRET: &[u8; 20] = b"7ad3773142a6692b25b8";

/// The first signature of "Auth signatures" there: socket `1234.1234` on `private-foobar`.
const SIGNATURE: &[u8; 64] = b"58df8b0c36d6982b82c3ecf6b4662e34fe8c25bba48f5369f135bf843651c3a4";

#[test]
fn codes_are_those_of_rfc_4231(rt: HostRuntime) {
    let long_key = [0xaa; 131];
    let rows: [(&[u8], &[u8], &[u8; 64]); 4] = [
        (
            &[0x0b; 20],
            b"Hi There",
            b"b0344c61d8db38535ca8afceaf0bf12b881dc200c9833da726e9376c2e32cff7",
        ),
        (
            b"Jefe",
            b"what do ya want for nothing?",
            b"5bdcc146bf60754e6a042426089575c75a003f089d2739839dec58b964ec3843",
        ),
        (
            &long_key,
            b"Test Using Larger Than Block-Size Key - Hash Key First",
            b"60e431591ee0b67f0d8a26aacbf5b77f8e0bc6213728c5140546040f0ee37f54",
        ),
        (
            &long_key,
            b"This is a test using a larger than block-size key and a larger than block-size data. The key needs to be hashed before being used by the HMAC algorithm.",
            b"9b09ffa71b942fcb27635fbcd5b0e944bfdc63644f0713938a7f51535c3a35e2",
        ),
    ];
    for (secret, message, code) in rows {
        let (first, rest) = message.split_at(message.len() / 2);
        let mut mac = Mac::new(secret);
        mac.add(first);
        mac.add(rest);
        assert_eq!(rt; &mac.finish(), code);
        assert_eq!(rt; &body_sig(secret, message), code);
    }
}

#[test]
fn sockets_and_users_are_signed_as_documented(rt: HostRuntime) {
    assert_eq!(rt;
        &socket_sig(SECRET, "1234.1234", "private-foobar", None),
        SIGNATURE
    );
    assert_eq!(rt;
        &socket_sig(
            SECRET,
            "1234.1234",
            "presence-foobar",
            Some("{\"user_id\":10,\"user_info\":{\"name\":\"Mr. Channels\"}}"),
        ),
        b"31935e7d86dba64c2a90aed31fdc61869f9b22ba9d8863bba239c03ca481bc80"
    );
    assert_eq!(rt;
        &user_sig(SECRET, "1234.1234", "{\"id\":\"12345\"}"),
        b"4708d583dada6a56435fb8bc611c77c359a31eebde13337c16ab43aa6de336ba"
    );
}

/// The parameters of the documented request, out of order.
fn documented_params(alloc: Global) -> Result<Params, Memory> {
    let rows = [
        ("auth_version", "1.0"),
        ("auth_signature", "not signed"),
        ("body_md5", "ec365a775a4cd0599faeb73354201b6f"),
        ("auth_key", "278d425bdf160c739803"),
        ("auth_timestamp", "1353088179"),
    ];
    let mut params = Params::new(alloc);
    for (name, value) in rows {
        let _ = params.insert(Text::of(alloc, name)?, Text::of(alloc, value)?)?;
    }
    Ok(params)
}

#[test]
fn requests_are_signed_as_documented(rt: HostRuntime) -> Result<(), Memory> {
    let params = documented_params(rt.alloc())?;
    assert_eq!(rt;
        &request_sig(SECRET, "POST", "/apps/3/events", &params),
        b"da454824c97ba181a32ccc17a72625ba02771f50b50e1e7430e47a1f3f457e6c"
    );
    Ok(())
}

#[test]
fn the_first_value_of_a_name_stays(rt: HostRuntime) -> Result<(), Memory> {
    let alloc = rt.alloc();
    let mut params = Params::new(alloc);
    assert!(rt; params.insert(Text::of(alloc, "b")?, Text::of(alloc, "1")?)? == Inserted::Fresh);
    assert!(rt; params.insert(Text::of(alloc, "a")?, Text::of(alloc, "2")?)? == Inserted::Fresh);
    assert!(rt; params.insert(Text::of(alloc, "b")?, Text::of(alloc, "3")?)? == Inserted::Double);
    assert!(rt; params.get("b").is_some_and(|value| value.as_str() == "1"));
    assert!(rt; params.get("c").is_none());
    assert_eq!(rt; params.as_slice().len(), 2);
    assert!(rt; params.as_slice()[0].name.as_str() == "a");
    Ok(())
}

#[test]
fn body_md5_is_as_documented(rt: HostRuntime) {
    assert_eq!(rt; &md5_hex(b"{}"), b"99914b932bd37a50b983c5e7c90ae93b");
    assert_eq!(rt;
        &md5_hex(
            b"{\"name\":\"foo\",\"channels\":[\"project-3\"],\"data\":\"{\\\"some\\\":\\\"data\\\"}\"}"
        ),
        b"ec365a775a4cd0599faeb73354201b6f"
    );
}

#[test]
fn only_the_key_and_the_whole_signature_match(rt: HostRuntime) {
    let rows = [
        (
            "k:58df8b0c36d6982b82c3ecf6b4662e34fe8c25bba48f5369f135bf843651c3a4",
            true,
        ),
        (
            "k:58DF8B0C36D6982B82C3ECF6B4662E34FE8C25BBA48F5369F135BF843651C3A4",
            false,
        ),
        (
            "k:58df8b0c36d6982b82c3ecf6b4662e34fe8c25bba48f5369f135bf843651c3a",
            false,
        ),
        (
            "j:58df8b0c36d6982b82c3ecf6b4662e34fe8c25bba48f5369f135bf843651c3a4",
            false,
        ),
        (
            "k: 58df8b0c36d6982b82c3ecf6b4662e34fe8c25bba48f5369f135bf843651c3a4",
            false,
        ),
        (
            "k:58df8b0c36d6982b82c3ecf6b4662e34fe8c25bba48f5369f135bf843651c3a4 ",
            false,
        ),
        (
            "58df8b0c36d6982b82c3ecf6b4662e34fe8c25bba48f5369f135bf843651c3a4",
            false,
        ),
        ("", false),
    ];
    for (given, expected) in rows {
        assert!(rt; matches(given, "k", SIGNATURE) == expected, "at {given}");
    }
}
