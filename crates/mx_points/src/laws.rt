//! What follows from the definitions alone.

ghost use Rattle.mx_points.specs.FrontLaws.{FewerLaw};

/// What each rule says of the first n deeds or lines holds of fewer.
pub fn fewer_law()
    ensures { FewerLaw }
{}
