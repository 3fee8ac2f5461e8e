//! Laws of the histories of runs, whatever the machine. Each is a statement on every trace; the functions do nothing.

ghost use Rattle.dstm_machines.specs.Laws.{EntriesAreHistory, PlacesHavePrefixes, PrefixesHavePlaces};

/// The history of a part of a trace that has its oldest events is a prefix of the whole history.
pub fn places_have_prefixes<K>()
    ensures { PlacesHavePrefixes K }
{}

/// Each prefix of a history is the history of such a part.
pub fn prefixes_have_places<K>()
    ensures { PrefixesHavePlaces K }
{}

/// The entries of the committed attempts are the history.
pub fn entries_are_history<K>()
    ensures { EntriesAreHistory K }
{}
