//! Laws of generated images. Each function does nothing: its contract is the law.

ghost use Rattle.gen_image.specs.Laws.{GeneratedFits, GeneratedCodeMeansForms};

/// A generated image has seven segments, which lie in 16 MiB of RAM and are apart.
pub fn generated_images_lie_in_ram()
    ensures { GeneratedFits }
{}

/// Each instruction of generated code is a form, and its word means that form.
pub fn generated_code_is_of_forms()
    ensures { GeneratedCodeMeansForms }
{}
