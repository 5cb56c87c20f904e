// What comes of a small log, by examples.
ghost use Rattle.std.specs.Prelude.{◌≡◌, Ok};
ghost use Rattle.vm_config.specs.Reading.{config_of};
ghost use Rattle.vm_laws.specs.ImportExamples.{Makes, kinds, no_code, no_code_config, no_code_text, with_code, with_code_config, with_code_text};

/// Two worked examples: the text that comes of a log means the configuration that the definitions give the log.
pub fn law_import_examples()
    ensures with_code { config_of with_code_text ≡ Ok with_code_config }
    ensures with_code_made { Makes with_code kinds with_code_config }
    ensures no_code { config_of no_code_text ≡ Ok no_code_config }
    ensures no_code_made { Makes no_code kinds no_code_config }
{}
