// Quotient and remainder toward lower numbers, also of numbers below nothing.
ghost use Rattle.whole.specs.Floor.{Floors, OnlyFloor, Rests, OnlyRest, Moved};

// What quotient and remainder are, that there are no others, and that n times k more only moves the quotient by k.
pub fn floors_stand()
    ensures floors { Floors }
    ensures only { OnlyFloor }
    ensures rests { Rests }
    ensures lone { OnlyRest }
    ensures moved { Moved }
{}
