// Choice by a test in specifications (specs/Pick.antt), the rules that proofs of such contracts search with
// (proofs/Picks.antt), and a test as a binary digit, which is std's `u8::from`. Definitions and laws only.
#![tactic(auto)]
