ghost use Rattle.std.specs.Prelude.{◌≡◌, Ok};
ghost use Rattle.ch_config.specs.Config.{built_in};
ghost use Rattle.ch_config_text.specs.BuiltIn.{built_in_text};
ghost use Rattle.ch_config_text.specs.Config.{config_in};

/// The text of the configuration that serves where none is given.
pub fn built_in_text() -> &'static str
    ensures text { result.now ≡ built_in_text }
    ensures reads { config_in result.now ≡ Ok built_in }
{
    r#"{"app_id":"1","key":"k","secret":"s","chan_shards":1,"user_shards":1}"#
}
