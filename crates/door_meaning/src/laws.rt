//! Limits as numbers.

ghost use Rattle.std.specs.Prelude.{◌≡◌};
ghost use Rattle.door_meaning.specs.Sessions.{most_sessions};
ghost use Rattle.door_meaning.specs.Step.{most_line_bytes};

/// A line has at most 65,536 bytes, and there are at most 1,024 sessions.
pub fn door_limits_are()
    ensures line { most_line_bytes ≡ 65536 }
    ensures sessions { most_sessions ≡ 1024 }
{}
