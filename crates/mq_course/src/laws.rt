//! What histories that grow are to the network that they tell.
ghost use Rattle.mq_course.specs.Courses.{AllNote, HistoriesHave, OneDoes};

/// Entries more in one history are entries more of that manager in the network, and nothing else changes.
pub fn what_one_does_more_is_the_networks()
    ensures { OneDoes }
{}

/// Where each history notes how many entries it has, the network has noted a step's end.
pub fn what_all_note_is_noted()
    ensures { AllNote }
{}

/// Histories of nodes that had done nothing have what was done and noted since.
pub fn histories_have_what_was_done()
    ensures { HistoriesHave }
{}
