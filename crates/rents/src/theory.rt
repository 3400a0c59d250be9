// The theory of the fairest rents: each function computes nothing, and its contract is what is proved.
ghost use Rattle.rooms.specs.Promise.{Always};
ghost use Rattle.rents.specs.Rents.{LeastSpare, MadeFairest, NoneMore, RentsAddUp, RentsExist, RentsSettle, SameRents};
ghost use Rattle.rents.specs.Shown.{ShownFairest};
ghost use Rattle.rents.specs.Faults.{ShowsDecides};

pub fn rents_stands()
    ensures exist { RentsExist }
    ensures sums { RentsAddUp }
    ensures settle { RentsSettle }
{}

pub fn fairest_stands()
    ensures least { LeastSpare }
    ensures most { NoneMore }
    ensures only { SameRents }
    ensures fairest { MadeFairest }
{}

pub fn shown_stands()
    ensures fairest { ShownFairest }
    ensures decides { ShowsDecides }
{}

pub fn always_stands()
    ensures { Always }
{}
