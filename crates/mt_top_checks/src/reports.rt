//! A flight that leaves its prediction, as a feed tells it.

/// A flight, the moment, and a report that lies a unit more to a side than the tolerance.
pub const REPORTED: &str = r#"{"do":"hello","role":"feed"}
{"do":"plan","call":"DDD1","type":"JA1","route":["Q0","Q1"],"at":0,"level":350}
{"do":"tick","now":101}
{"do":"report","call":"DDD1","at":101,"x":48480,"y":7201,"z":2100000}
{"do":"bye"}
"#;

/// What these lines are answered.
pub const JUDGED: &str = r#"{"role":"feed"}
{"entered":1}
{"entered":2}
{"entered":3,"verdict":["lateral"]}
{"done":"bye"}
"#;
