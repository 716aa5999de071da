//! Laws of the definitions of images. Each function does nothing: its contract is the law.

ghost use Rattle.elf_image.specs.Laws.{PlacesLieInRam, OneImage, OneFault, ImageOrFault, WrittenReadsBack, WrittenLength, WrittenLengthOfTwelve, ReadSegmentsAreApart, BadPlaceNamesRamOrGuest};

/// Where no place is bad, each segment and each guest that is not empty lies in RAM, and no two of
/// them meet.
pub fn loaded_ranges_lie_in_ram()
    ensures { PlacesLieInRam }
{}

/// A file has at most one image or one first fault.
pub fn a_file_means_one_image_or_one_fault()
    ensures image { OneImage }
    ensures fault { OneFault }
    ensures either { ImageOrFault }
{}

/// The file of an image is read back as the image without its empty segments, where it has 1 to 64
/// segments and no two of them meet.
pub fn a_written_image_is_read_back()
    ensures { WrittenReadsBack }
{}

/// The file of an image has 64 bytes, 56 for each segment, and the bytes of the segments: with one
/// segment of 12 bytes 132.
pub fn a_written_file_has_its_headers_and_bytes()
    ensures length { WrittenLength }
    ensures of_twelve { WrittenLengthOfTwelve }
{}

/// No two segments of a file's image meet, so a bad place is one outside RAM, or that of a guest.
pub fn segments_of_a_file_are_apart()
    ensures apart { ReadSegmentsAreApart }
    ensures bad { BadPlaceNamesRamOrGuest }
{}
