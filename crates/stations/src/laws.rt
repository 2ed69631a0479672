// The laws of stations and their journals.
ghost use Rattle.stations.specs.Laws.{BoatRecalls, HarbourRecalls};

// A boat is a function of its journal.
pub fn boat_recalls_stands()
    ensures { BoatRecalls }
{}

// So is the harbour.
pub fn harbour_recalls_stands()
    ensures { HarbourRecalls }
{}
