//! The manifests that rows name.

/// The manifest of this name, or else the word itself.
pub fn manifest(word: &str) -> &str {
    match word {
        // one key in one copy, and the version after it
        "home" => {
            r#"{"version":1,"keyValueStorages":[{"name":"fav","keyValuePairs":[{"name":"home","type":"u16","initial":"u16:513"}]}]}"#
        }
        "home-next" => {
            r#"{"version":2,"keyValueStorages":[{"name":"fav","keyValuePairs":[{"name":"home","type":"u16","initial":"u16:514"}]}]}"#
        }
        // the same key in three copies of which two must agree, by itself or with the whole storage
        "home-in-three" => {
            r#"{"version":1,"keyValueStorages":[{"name":"fav","redundancy":{"m":2,"n":3},"keyValuePairs":[{"name":"home","type":"u16","initial":"u16:513"}]}]}"#
        }
        "home-whole" => {
            r#"{"version":1,"keyValueStorages":[{"name":"fav","redundancy":{"m":2,"n":3,"scope":"storage"},"keyValuePairs":[{"name":"home","type":"u16","initial":"u16:513"}]}]}"#
        }
        // twelve bytes
        "box" => r#"{"version":1,"keyValueStorages":[{"name":"box","maximumAllowedSize":12}]}"#,
        // one file
        "map" => {
            r#"{"version":1,"fileStorages":[{"name":"cal","files":[{"name":"map","initial":"61620a6364"}]}]}"#
        }
        // a key for each strategy
        "keys-1" => {
            r#"{"version":1,"keyValueStorages":[{"name":"s","keyValuePairs":[{"name":"conv","type":"u16","initial":"u16:4"},{"name":"gone","type":"u8","initial":"u8:3"},{"name":"keep","type":"u8","initial":"u8:1"},{"name":"over","type":"u8","initial":"u8:2"}]}]}"#
        }
        "keys-2" => {
            r#"{"version":2,"keyValueStorages":[{"name":"s","keyValuePairs":[{"name":"conv","type":"u32","initial":"u32:14"},{"name":"gone","type":"u8","updateStrategy":"delete"},{"name":"keep","type":"u8","initial":"u8:11"},{"name":"new","type":"bool","initial":"bool:true"},{"name":"over","type":"u8","initial":"u8:12","updateStrategy":"overwrite"}]}]}"#
        }
        // other kinds and numbers of copies, version by version
        "files-2" => {
            r#"{"version":2,"fileStorages":[{"name":"cal","redundancy":{"m":1,"n":2},"files":[{"name":"map","initial":"61620a6364"}]}]}"#
        }
        "both-3" => {
            r#"{"version":3,"keyValueStorages":[{"name":"fav","redundancy":{"m":4,"n":5},"keyValuePairs":[{"name":"home","type":"u64","initial":"u64:7"}]}],"fileStorages":[{"name":"cal","redundancy":{"m":2,"n":3},"files":[{"name":"map","initial":"00"}]}]}"#
        }
        "keys-4" => {
            r#"{"version":4,"keyValueStorages":[{"name":"box","redundancy":{"m":3,"n":4}},{"name":"fav","keyValuePairs":[{"name":"home","type":"u64"}]}]}"#
        }
        // a day: two applications with two storages each
        "driving" => {
            r#"{"version":7,"keyValueStorages":[{"name":"favourites","maximumAllowedSize":65536,"redundancy":{"m":1,"n":2},"keyValuePairs":[{"name":"home","type":"{i32,i32,text}","initial":"{i32:0,i32:0,text:\"\"}"}]},{"name":"odometer","maximumAllowedSize":256,"redundancy":{"m":2,"n":3},"keyValuePairs":[{"name":"metres","type":"u64","initial":"u64:0"}]}]}"#
        }
        "calibrating" => {
            r#"{"version":3,"fileStorages":[{"name":"calibration","readOnly":true,"redundancy":{"m":2,"n":3,"scope":"storage"},"files":[{"name":"lidar.cal","initial":"0a0b0c"}]},{"name":"logs","maximumAllowedSize":4194304}]}"#
        }
        _ => word,
    }
}
