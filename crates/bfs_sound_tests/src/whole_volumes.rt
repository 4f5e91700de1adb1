// Volumes that are whole: each is the contract of a function that does nothing.
ghost use Rattle.bfs_sound_tests.specs.Directory.{DirectoryIsWhole};
ghost use Rattle.bfs_sound_tests.specs.Files.{FilesAreWhole};
ghost use Rattle.bfs_sound_tests.specs.Levels.{LevelsAreKept};
ghost use Rattle.bfs_sound_tests.specs.Logged.{LoggedRecovers};
ghost use Rattle.bfs_sound_tests.specs.Nested.{NestedIsWhole};
ghost use Rattle.bfs_sound_tests.specs.Pages.{PagesAreWhole};
ghost use Rattle.bfs_sound_tests.specs.Links.{LinksAreWhole};
ghost use Rattle.bfs_sound_tests.specs.Inner.{KeylessIsWhole, TwinIsWhole, VacantIsWhole};
ghost use Rattle.bfs_sound_tests.specs.Attributes.{AttributesAreWhole};
ghost use Rattle.bfs_sound_tests.specs.Bare.{BareIsWhole};

/// A volume whose root directory has one empty directory is whole.
pub fn directory_is_whole()
    ensures { DirectoryIsWhole }
{}

/// A volume with a short link, a long link, and a file with an attribute in its small data and one in an attribute directory is whole.
pub fn links_are_whole()
    ensures { LinksAreWhole }
{}

/// A volume with a file that has an indirect table, an empty file, and an index with a fragment for both is whole.
pub fn files_are_whole()
    ensures { FilesAreWhole }
{}

/// A volume whose index has an interior page, two leaves, a page of duplicates and a free page is whole.
pub fn pages_are_whole()
    ensures { PagesAreWhole }
{}

/// A volume with a directory in a directory is whole.
pub fn nested_is_whole()
    ensures { NestedIsWhole }
{}

/// A volume with one block that is only in the log recovers to the tree that it is whole with after replay.
pub fn logged_recovers()
    ensures { LoggedRecovers }
{}

/// A stream with direct runs, a full indirect table and a double indirect level keeps its format.
pub fn levels_are_kept()
    ensures { LevelsAreKept }
{}

/// A volume with a directory whose tree has an interior page without keys is whole.
pub fn keyless_is_whole()
    ensures { KeylessIsWhole }
{}

/// A volume with a directory whose tree has a leaf without rows behind another leaf is whole.
pub fn vacant_is_whole()
    ensures { VacantIsWhole }
{}

/// A volume with a directory whose tree has the same key twice in an interior page is whole.
pub fn twin_is_whole()
    ensures { TwinIsWhole }
{}

/// A volume whose attribute directories have rows `.` and `..` is whole.
pub fn attributes_are_whole()
    ensures { AttributesAreWhole }
{}

/// A volume without an index directory is whole, with a tree without indices.
pub fn bare_is_whole()
    ensures { BareIsWhole }
{}
