//! What follows from the definitions alone, and what is true of every state that the program reaches.

ghost use Rattle.mx_state.specs.AimAlone.{OtherClassLaw, AimAloneLaw, AimToldLaw};
ghost use Rattle.mx_state.specs.Coming.{SectionComesLaw, SectionWordsLaw};
ghost use Rattle.mx_state.specs.Laws.{RefusalLaw, PathLaw, OwnLastLaw, UnknownLaw, SetInitialLaw, DeleteInitialLaw, VersionLaw};
ghost use Rattle.mx_state.specs.Pages.{AreFreePagesBare, ArePagesHeldOnce};
ghost use Rattle.mx_state.specs.Told.{NewSectionLaw, PathTellsLaw, SectionDescLaw, ResolvedLaw, OnlyLinkLaw, LinkRepliesLaw, OthersLaw, SectionsStayLaw};
ghost use Rattle.mx_state.specs.Waiting.{DoesLaw, OneRunsLaw, WaitsForLaw};

use crate::states::State;

/// A request that is refused leaves the state; one on a path leaves what is the processes' own, and the mail.
pub fn what_a_request_leaves()
    ensures refused { RefusalLaw }
    ensures on_path { PathLaw }
{}

/// No process knows a number beyond its last; and whatever entries are made, none knows a number beyond the last of the
/// version.
pub fn numbers_beyond_the_last_are_unknown()
    ensures own { OwnLastLaw }
    ensures unknown { UnknownLaw }
{}

/// An initial access list is in no descriptor.
pub fn an_initial_list_is_in_no_descriptor()
    ensures set { SetInitialLaw }
    ensures deleted { DeleteInitialLaw }
{}

/// The class of a segment alone changes a descriptor: it is another wherever the aim is another, even where nothing else
/// of it is; and after `set_class` each process whose aim to the segment is another has a descriptor that is told as a
/// change.
pub fn aim_alone_changes_a_descriptor()
    ensures other { OtherClassLaw }
    ensures alone { AimAloneLaw }
    ensures told { AimToldLaw }
{}

/// Only `status` asks the version: with another a request leaves the same state but for the version, and is replied the
/// same; `status` the same but for the class of a segment.
pub fn only_status_asks_the_version()
    ensures { VersionLaw }
{}

/// A linkage section of which a reply tells is there, to read and write within its brackets; a reply to a request on a
/// path tells of none.
pub fn a_section_that_is_told_is_there()
    ensures told { NewSectionLaw }
    ensures on_path { PathTellsLaw }
    ensures descriptor { SectionDescLaw }
{}

/// A number of a process becomes a linkage section only where it stood for nothing, and every section has a word.
pub fn a_section_comes_where_nothing_stood()
    ensures comes { SectionComesLaw }
    ensures words { SectionWordsLaw }
{}

/// Only `link` is answered that a link leads to a word, and every `link` of a process that is not refused is answered
/// so; the link is then a word of a linkage section, and stays one.
pub fn a_link_is_resolved_or_refused()
    ensures resolved { ResolvedLaw }
    ensures only { OnlyLinkLaw }
    ensures replies { LinkRepliesLaw }
{}

/// A request leaves what every other process has of its own, and the descriptors of its linkage sections.
pub fn what_a_request_leaves_to_others()
    ensures own { OthersLaw }
    ensures sections { SectionsStayLaw }
{}

/// Whether a process runs, waits or has ended is what its own entries of a right journal say.
pub fn a_process_does_what_its_entries_say()
    ensures { DoesLaw }
{}

/// Not all processes wait for one another: where one waits, and none that waits is ready, another runs; and one that is
/// not ready waits for another that runs, or waits and is ready.
pub fn not_all_wait_for_one_another()
    ensures runs { OneRunsLaw }
    ensures waits_for { WaitsForLaw }
{}

/// In every state that the program reaches the stacks, the segments and the linkage sections of all processes lie on
/// different pages, and no free page is held: so a page that is freed is held no more.
pub fn pages_are_held_once(state: &State)
    ensures { ArePagesHeldOnce state.now }
{
    // The state is read for what its model says of it.
    let _version = state.version;
}

/// In every state that the program reaches no descriptor covers a free page of memory: so a page that is freed may be
/// cleared, and one that is given out is nobody's.
pub fn free_pages_are_bare(state: &State)
    ensures { AreFreePagesBare state.now }
{
    // The state is read for what its model says of it.
    let _version = state.version;
}
