// The theory of sharings and rows, with no algorithm in it: each function computes nothing, and its contract is what is proved.
ghost use Rattle.rooms.specs.Before.{EndsOrCircle, ShownLongest};
ghost use Rattle.rooms.specs.Promise.{AnyBest, Best, FairestAtLeast};
ghost use Rattle.rooms.specs.Sharing.{BestAround, CertifiedAround, CertifiedBest, LongestExists, NoMore, Onto, RowWithin, SameSum};

pub fn sharing_stands()
    ensures onto { Onto }
    ensures sums { SameSum }
    ensures certified { CertifiedBest }
{}

pub fn settlement_stands()
    ensures best { Best }
    ensures any { AnyBest }
    ensures least { FairestAtLeast }
{}

pub fn rows_stands()
    ensures around { BestAround }
    ensures certified { CertifiedAround }
    ensures within { RowWithin }
    ensures longest { LongestExists }
    ensures most { NoMore }
{}

pub fn before_stands()
    ensures shown { ShownLongest }
    ensures circle { EndsOrCircle }
{}
