// The worked houses: the definitions at work on six small houses, as theorems. Nothing is computed here; each function's contract is what is proved.
#![tactic(auto)]

ghost use Rattle.houses.specs.Table.{HousesStand};
ghost use Rattle.houses.specs.Unfair.{Another, EqualGains, EqualRents, InTurn, WorthsAsRents};

// Every share of the table is the fairest, with the gains that stand there.
pub fn houses_stand()
    ensures { HousesStand }
{}

// What looks fair and is not, each by one of the houses.
pub fn unfair_stands()
    ensures rents { EqualRents }
    ensures worths { WorthsAsRents }
    ensures gains { EqualGains }
    ensures another { Another }
    ensures turns { InTurn }
{}
