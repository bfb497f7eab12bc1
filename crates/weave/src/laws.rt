//! What an interleaving is where what given parties sent is taken as it came. Each law is the contract of a function
//! that does nothing.

ghost use Rattle.weave.specs.Given.{AnyGiven, NoneGiven};

/// Where no packet came from a given party, it is one in which every delivery follows its sending.
pub fn none_given()
    ensures { NoneGiven }
{}

/// Where there is one in which every delivery follows its sending, there is one whoever is given.
pub fn any_given()
    ensures { AnyGiven }
{}
