// What holds of every tree.
ghost use Rattle.anchor_tree.specs.Laws.{BlocksAreInOrder, BlocksHavePlaces, DirectoriesArePlaced, DirectoriesDiffer, DirectoriesHaveParents, FilesAreHeld, FilesAreNoDirectories, FilesDiffer, FirstLevelStands, HoldersAreFull, PlacesAreBlocks, PlacesDiffer};

/// The blocks of a tree and the places of its files are one to one, in order. It does nothing.
pub fn blocks_are_places()
    ensures each { BlocksHavePlaces }
    ensures inside { PlacesAreBlocks }
    ensures one { PlacesDiffer }
    ensures in_order { BlocksAreInOrder }
{}

/// No two directories, no two files, and no file and directory of a tree have one name. It does nothing.
pub fn names_differ()
    ensures directories { DirectoriesDiffer }
    ensures files { FilesDiffer }
    ensures apart { FilesAreNoDirectories }
{}

/// A directory stands in the anchor, or in one that comes before it. It does nothing.
pub fn directories_stand()
    ensures placed { DirectoriesArePlaced }
    ensures first { FirstLevelStands }
    ensures parents { DirectoriesHaveParents }
{}

/// Each file is in a directory that may have files, and each such directory has all its files. It does nothing.
pub fn files_stand()
    ensures held { FilesAreHeld }
    ensures full { HoldersAreFull }
{}
