//! Laws of what cluster files are, and the limits as numbers.
ghost use Rattle.std.specs.Prelude.{◌≡◌};
ghost use Rattle.fy_config.specs.declared.limits.TheConstants.{MOST_FILE_BYTES, MOST_PROTECTIONS};
ghost use Rattle.fy_config.specs.Laws.{ConfigIsUnambiguous};

/// Bytes are one configuration, or have one fault.
#[tactic(auto, using(crate::proofs::Once::config_once))]
pub fn configs_are_unambiguous()
    ensures { ConfigIsUnambiguous }
{
    fy_policy::text_laws::reading_is_settled();
}

/// The limits of this crate, as numbers.
pub fn limits()
    ensures file_bytes { MOST_FILE_BYTES ≡ 1048576 }
    ensures protections { MOST_PROTECTIONS ≡ 1024 }
{}
