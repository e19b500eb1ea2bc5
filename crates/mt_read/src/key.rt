ghost use Rattle.std.specs.Prelude.{◌≡◌};
ghost use Rattle.mt_read.specs.Key.{key_text, rule_text};

use mt_base::RuleName;

/// A key of a line.
#[derive(Clone, Copy)]
pub(crate) enum Key {
    Do,
    Who,
    Call,
    From,
    To,
    X,
    Y,
    Z,
    Vx,
    Vy,
    Vz,
    R,
    Gr,
    W,
    Gw,
    Now,
    Role,
    Name,
    Bands,
    Corners,
    Bottom,
    Top,
    Kind,
    Route,
    At,
    Level,
    Direct,
    Eff,
    Probe,
    Force,
    Probed,
    Sec,
    Rvsm,
    Rule(RuleName),
}

/// Its text.
pub(crate) fn key_text(key: Key) -> &'static str
    ensures { result.now ≡ key_text key }
{
    match key {
        Key::Do => "do",
        Key::Who => "who",
        Key::Call => "call",
        Key::From => "from",
        Key::To => "to",
        Key::X => "x",
        Key::Y => "y",
        Key::Z => "z",
        Key::Vx => "vx",
        Key::Vy => "vy",
        Key::Vz => "vz",
        Key::R => "r",
        Key::Gr => "gr",
        Key::W => "w",
        Key::Gw => "gw",
        Key::Now => "now",
        Key::Role => "role",
        Key::Name => "name",
        Key::Bands => "bands",
        Key::Corners => "corners",
        Key::Bottom => "bottom",
        Key::Top => "top",
        Key::Kind => "type",
        Key::Route => "route",
        Key::At => "at",
        Key::Level => "level",
        Key::Direct => "direct",
        Key::Eff => "eff",
        Key::Probe => "probe",
        Key::Force => "force",
        Key::Probed => "v",
        Key::Sec => "sec",
        Key::Rvsm => "rvsm",
        Key::Rule(name) => rule_text(name),
    }
}

fn rule_text(name: RuleName) -> &'static str
    ensures { result.now ≡ rule_text name }
{
    match name {
        RuleName::Sh => "sh",
        RuleName::Sv => "sv",
        RuleName::R0 => "r0",
        RuleName::Gh => "gh",
        RuleName::Rmax => "rmax",
        RuleName::W0 => "w0",
        RuleName::Gv => "gv",
        RuleName::Wmax => "wmax",
        RuleName::Tc => "tc",
        RuleName::Ta => "ta",
        RuleName::Tv => "tv",
        RuleName::Flights => "flights",
        RuleName::History => "history",
        RuleName::Sv2 => "sv2",
    }
}

/// Why a line is refused for a field.
#[derive(Clone, Copy)]
pub(crate) enum Fault {
    /// The field is missing or of another kind.
    Form(Key),
    /// The number at it is outside its bounds.
    Range(Key),
}
