// What holds of every feed and its text.
ghost use Rattle.notation.specs.Law.{RoundTrip};

#[tactic(auto, using(crate::proofs::RoundTrip::round_trip))]
pub fn round_trip_stands()
    ensures { RoundTrip }
{}
