// What holds of every command and every line.
ghost use Rattle.wire.specs.Encode.{DecodesEncoded};
ghost use Rattle.wire.specs.Line.{LinesApart};

#[tactic(auto, using(crate::proofs::Encoded::decodes_encoded))]
pub fn decoded_stands()
    ensures { DecodesEncoded }
{}

#[tactic(auto, using(crate::proofs::Apart::lines_apart))]
pub fn lines_stand()
    ensures { LinesApart }
{}
